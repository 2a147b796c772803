//! Equalities of variables with terms.

ghost use Rattle.std.specs.Prelude.{◌≡◌, ◌+◌, ◌*ℤ◌, ◌<◌, ◌≤◌, ◌^◌, ◌++◌, negsuc, All, IfOk, OnOk, length, map, unsigned_abs};
ghost use Rattle.spf_term.specs.Equation.{difference};
ghost use Rattle.spf_term.specs.Measure.{size};
ghost use Rattle.spf_rel.specs.Graph.{definitions, opposite_mono};
ghost use Rattle.spf_rel.specs.Renumbering.{AtomVariables, Variables, moved, renumbered};

use crate::renumber::{Blocks, renumbered_atom};
use spf_base::NoMemory;
use spf_term::{Atom, Mono, Term};
use sqlite_items::Items;
use std::alloc::Global;

/// The number with the other sign.
fn opposite(number: i64) -> i64
    requires { unsigned_abs number ≤ 2 ^ 62 }
    ensures { result ≡ negsuc 0 *ℤ number }
{
    -number
}

/// Adds the monomials with opposite coefficients, and with new numbers for their variables.
fn push_opposites(
    alloc: Global,
    blocks: &Blocks,
    monos: &[Mono],
    made: &mut Items<Mono>,
) -> Result<(), NoMemory>
    requires small { All (λ mono. unsigned_abs mono.coef ≤ 2 ^ 62) monos.now }
    requires room { All (λ mono. AtomVariables (λ number. moved blocks.now number < 2 ^ 32) mono.atom) monos.now }
    ensures { OnOk result (made.new ≡ made.old ++ map (opposite_mono (moved blocks.now)) monos.now) }
{
    for mono in monos {
        let atom = renumbered_atom(alloc, blocks, &mono.atom)?;
        made.push(Mono {
            coef: opposite(mono.coef),
            atom,
        })?;
    }
    Ok(())
}

/// The variable less the term, with new numbers for the variables of the term. Linear in it.
fn difference(alloc: Global, var: u32, blocks: &Blocks, term: &Term) -> Result<Term, NoMemory>
    requires small { size term.now ≤ 2 ^ 62 }
    requires room { Variables (λ number. moved blocks.now number < 2 ^ 32) term.now }
    ensures { IfOk result (λ made. made ≡ difference var (renumbered (moved blocks.now) term.now)) }
{
    let mut monos = Items::new(alloc);
    monos.push(Mono {
        coef: 1,
        atom: Atom::Var(var),
    })?;
    push_opposites(alloc, blocks, term.monos.as_slice(), &mut monos)?;
    Ok(Term {
        monos,
        constant: opposite(term.constant),
    })
}

/// The differences of variables from this one on and of the terms, with new numbers for the variables of the terms. Linear in
/// the terms.
pub(crate) fn definitions(
    alloc: Global,
    first: u32,
    blocks: &Blocks,
    terms: &[Term],
) -> Result<Items<Term>, NoMemory>
    requires numbers { first + length terms.now < 2 ^ 32 }
    requires small { All (λ term. size term ≤ 2 ^ 62) terms.now }
    requires room { All (Variables (λ number. moved blocks.now number < 2 ^ 32)) terms.now }
    ensures { IfOk result (λ made. made ≡ definitions first (map (renumbered (moved blocks.now)) terms.now)) }
{
    let mut made = Items::new(alloc);
    let mut var = first;
    for term in terms {
        made.push(difference(alloc, var, blocks, term)?)?;
        var += 1;
    }
    Ok(made)
}
