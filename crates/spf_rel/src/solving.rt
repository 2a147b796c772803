//! Steps 1 and 2 of simplification for one conjunction, with the tests of the number rule between them.

ghost use Rattle.std.specs.Prelude.{◌≡◌, ◌+◌, ◌<◌, ◌^◌, None, length};
ghost use Rattle.spf_rel.specs.Elimination.{AreReady};
ghost use Rattle.spf_rel.specs.Rule.{conj_excess};
ghost use Rattle.spf_rel.specs.Simplified.{IsOutcome, rounds, solved};

use crate::elimination::{choose, eliminate};
use crate::normal_terms::made_normal;
use crate::relation::Conj;
use crate::rule::conj_excess;
use spf_term::{TermFault, normal_form_is_normal, oriented_terms_are_normal};
use std::alloc::Global;

/// Step 2 as often as it can be done, at most once for each equality.
fn all_rounds(alloc: Global, outer: u32, conj: Conj) -> Result<Conj, TermFault>
    requires room { outer + conj.inner < 2 ^ 32 }
    requires equal { AreReady conj.equal }
    requires least { AreReady conj.least }
    requires keeps { conj_excess conj ≡ None }
    ensures { IsOutcome (rounds (length conj.equal) outer conj) result }
{
    normal_form_is_normal();
    oriented_terms_are_normal();
    let turns = conj.equal.len();
    let mut current = conj;
    for _turn in 0..turns {
        let high = outer + current.inner;
        match choose(alloc, current.equal.as_slice(), outer, high)? {
            None => return Ok(current),
            Some(chosen) => match eliminate(alloc, &current, &chosen) {
                Ok(made) => current = made,
                Err(fault) => return Err(fault),
            },
        }
    }
    Ok(current)
}

/// Steps 1 and 2. For each variable that is solved it takes as long as the conjunction that this makes, with its terms
/// before those of one atom are added, takes to sort.
pub(crate) fn solved(alloc: Global, outer: u32, conj: &Conj) -> Result<Conj, TermFault>
    requires room { outer + conj.now.inner < 2 ^ 32 }
    ensures { IsOutcome (solved outer conj.now) result }
{
    normal_form_is_normal();
    oriented_terms_are_normal();
    if let Some(count) = conj_excess(conj) {
        return Err(TermFault::Wide { count });
    }
    match made_normal(alloc, conj) {
        Ok(made) => all_rounds(alloc, outer, made),
        Err(fault) => Err(fault),
    }
}
