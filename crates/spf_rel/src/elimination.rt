//! Step 2 of simplification: an equality is solved, and its solution stands in place of the variable.

ghost use Rattle.std.specs.Prelude.{◌≡◌, ◌<◌, ◌++◌, None, All, IfOk, OnOk, length, map};
ghost use Rattle.spf_term.specs.Normal.{IsNormal};
ghost use Rattle.spf_term.specs.NumberRule.{excess};
ghost use Rattle.spf_term.specs.Solution.{IsReady};
ghost use Rattle.spf_term.specs.Wide.{plain};
ghost use Rattle.spf_rel.specs.Elimination.{AreReady, IsChosen, choice_of, put, put_oriented};
ghost use Rattle.spf_rel.specs.Rule.{IsTestedTogether};
ghost use Rattle.spf_rel.specs.Simplified.{eliminated};

use crate::relation::Conj;
use crate::rule::tested_together;
use spf_base::NoMemory;
use spf_term::{Solution, Term, TermFault, WideTerm, oriented_wide, solve, substituted_wide};
use sqlite_items::Items;
use std::alloc::Global;

/// The equality that is solved, by its place, and its solution.
#[derive(Drop)]
pub(crate) struct Chosen {
    pub place: usize,
    pub found: Solution,
}

/// The first of the terms that can be solved for a variable from `low` to below `high`. It takes a solution for each term up
/// to that one.
pub(crate) fn choose(
    alloc: Global,
    terms: &[Term],
    low: u32,
    high: u32,
) -> Result<Option<Chosen>, NoMemory>
    requires ready { AreReady terms.now }
    ensures { IfOk result (λ found. IsChosen low high terms.now found) }
{
    for (place, term) in terms.iter().enumerate() {
        if let Some(found) = solve(alloc, term, low, high)? {
            return Ok(Some(Chosen { place, found }));
        }
    }
    Ok(None)
}

/// Adds the terms with the solution in place of its variable, each normal and beginning with a positive coefficient.
fn push_oriented(
    alloc: Global,
    found: &Solution,
    terms: &[Term],
    made: &mut Items<WideTerm>,
) -> Result<(), NoMemory>
    requires ready { AreReady terms.now }
    requires found { IsReady found.now }
    ensures { OnOk result (map plain made.new ≡ map plain made.old ++ map (put_oriented found.now) terms.now) }
{
    for term in terms {
        let wide = substituted_wide(alloc, term, found.var, &found.by)?;
        made.push(oriented_wide(alloc, wide)?)?;
    }
    Ok(())
}

/// The terms of both, as `push_oriented` adds them.
fn both_oriented(
    alloc: Global,
    found: &Solution,
    before: &[Term],
    after: &[Term],
) -> Result<Items<WideTerm>, NoMemory>
    requires before { AreReady before.now }
    requires after { AreReady after.now }
    requires found { IsReady found.now }
    ensures { IfOk result (λ made. map plain made ≡ map (put_oriented found.now) before.now ++ map (put_oriented found.now) after.now) }
{
    let mut made = Items::new(alloc);
    push_oriented(alloc, found, before, &mut made)?;
    push_oriented(alloc, found, after, &mut made)?;
    Ok(made)
}

/// Adds the terms with the solution in place of its variable, each normal.
pub(crate) fn push_put(
    alloc: Global,
    found: &Solution,
    terms: &[Term],
    made: &mut Items<WideTerm>,
) -> Result<(), NoMemory>
    requires ready { AreReady terms.now }
    requires found { IsReady found.now }
    ensures { OnOk result (map plain made.new ≡ map plain made.old ++ map (put found.now) terms.now) }
{
    for term in terms {
        made.push(substituted_wide(alloc, term, found.var, &found.by)?)?;
    }
    Ok(())
}

/// The terms with the solution in place of its variable, each normal.
pub(crate) fn all_put(
    alloc: Global,
    found: &Solution,
    terms: &[Term],
) -> Result<Items<WideTerm>, NoMemory>
    requires ready { AreReady terms.now }
    requires found { IsReady found.now }
    ensures { IfOk result (λ made. map plain made ≡ map (put found.now) terms.now) }
{
    let mut made = Items::new(alloc);
    push_put(alloc, found, terms, &mut made)?;
    Ok(made)
}

/// The conjunction without this equality, with its solution in place of the variable, and the test of the number rule behind
/// step 1. For n monomials before those of one atom are added, nested ones counted, it takes n log n comparisons of atoms
/// and memory for n.
pub(crate) fn eliminate(alloc: Global, conj: &Conj, chosen: &Chosen) -> Result<Conj, TermFault>
    requires place { chosen.now.place < length conj.now.equal }
    requires equal { AreReady conj.now.equal }
    requires least { AreReady conj.now.least }
    requires found { IsReady chosen.now.found }
    ensures { IsTestedTogether (eliminated conj.now (choice_of conj.now.equal chosen.now)) result }
{
    let terms = conj.equal.as_slice();
    let before = &terms[..chosen.place];
    let after = &terms[chosen.place + 1..];
    let equal = both_oriented(alloc, &chosen.found, before, after)?;
    let least = all_put(alloc, &chosen.found, conj.least.as_slice())?;
    tested_together(alloc, conj.inner, equal.as_slice(), least.as_slice())
}
