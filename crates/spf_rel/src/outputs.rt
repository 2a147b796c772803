//! One output after another is solved for, and its solution stands in its place.

ghost use Rattle.std.specs.Prelude.{◌≡◌, ◌+◌, ◌<◌, ◌^◌, ◌++◌, IfOk, length, map, take, drop};
ghost use Rattle.spf_term.specs.Solution.{IsReady};
ghost use Rattle.spf_term.specs.Wide.{plain};
ghost use Rattle.spf_rel.specs.Elimination.{AreReady, IsReadyConj, choice_of, put};
ghost use Rattle.spf_rel.specs.Function.{AreFound, IsReadyPartly, IsTestedPartly, Tells, assigned, begun, outputs_found};

use crate::elimination::{Chosen, all_put, choose, push_put};
use crate::partly::{Partly, tested_partly};
use crate::relation::Conj;
use spf_base::NoMemory;
use spf_term::{Solution, Term, TermFault, WideTerm, normal_form_is_normal};
use sqlite_items::Items;
use std::alloc::Global;

/// The terms but that at the place, with the solution in place of its variable, each normal.
fn others_put(
    alloc: Global,
    found: &Solution,
    terms: &[Term],
    place: usize,
) -> Result<Items<WideTerm>, NoMemory>
    requires inside { place < length terms.now }
    requires ready { AreReady terms.now }
    requires found { IsReady found.now }
    ensures { IfOk result (λ made. map plain made ≡ map (put found.now) (take place terms.now ++ drop (place + 1) terms.now)) }
{
    let mut made = Items::new(alloc);
    push_put(alloc, found, &terms[..place], &mut made)?;
    push_put(alloc, found, &terms[place + 1..], &mut made)?;
    Ok(made)
}

/// What is left without the equality that is solved, and the results with its solution, which stands in place of its
/// variable. For n monomials before those of one atom are added, nested ones counted, it takes n log n comparisons of atoms
/// and memory for n.
fn assigned(alloc: Global, partly: &Partly, chosen: Chosen) -> Result<Partly, TermFault>
    requires place { chosen.place < length partly.now.equal }
    requires ready { IsReadyPartly partly.now }
    requires found { IsReady chosen.found }
    ensures { IsTestedPartly (assigned (choice_of partly.now.equal chosen) partly.now) result }
{
    let found = chosen.found;
    let equal = others_put(alloc, &found, partly.equal.as_slice(), chosen.place)?;
    let least = all_put(alloc, &found, partly.least.as_slice())?;
    let results = all_put(alloc, &found, partly.results.as_slice())?;
    tested_partly(
        alloc,
        equal.as_slice(),
        least.as_slice(),
        results.as_slice(),
        found.by,
    )
}

/// The terms of the outputs, which have the numbers from `ins` on, where each can be solved for. For each output it takes as
/// long as the conjunction and the results that this makes, with their terms before those of one atom are added, take to
/// sort.
pub(crate) fn outputs_found(
    alloc: Global,
    ins: u32,
    outs: u32,
    conj: Conj,
) -> Result<Option<Items<Term>>, TermFault>
    requires room { ins + outs < 2 ^ 32 }
    requires ready { IsReadyConj conj }
    ensures answer { Tells (outputs_found outs ins (begun conj)) result }
    ensures found { IfOk result (λ found. AreFound outs found) }
{
    normal_form_is_normal();
    let mut partly = Partly {
        equal: conj.equal,
        least: conj.least,
        results: Items::new(alloc),
    };
    for taken in 0..outs {
        let output = ins + taken;
        match choose(alloc, partly.equal.as_slice(), output, output + 1)? {
            None => return Ok(None),
            Some(chosen) => match assigned(alloc, &partly, chosen) {
                Ok(made) => partly = made,
                Err(fault) => return Err(fault),
            },
        }
    }
    Ok(Some(partly.results))
}
