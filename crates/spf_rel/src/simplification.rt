//! Simplified sets and relations.

ghost use Rattle.std.specs.Prelude.{◌≡◌, ◌<◌, ◌^◌, All, IfOk};
ghost use Rattle.spf_rel.specs.Meaning.{IsFormed, IsFormedRel, IsFormedSet, IsSameRelation, IsSameSet};
ghost use Rattle.spf_rel.specs.Simplified.{AreOutcomes, IsSimplified, IsSimplifiedList, IsSimplifiedSet, all_solved};

use crate::relation::{Conj, Rel, Set};
use crate::simplifying_laws::simplification_keeps_the_meaning;
use crate::solving::solved;
use crate::tidying::tidied;
use spf_term::{
    TermFault, normal_form_keeps_the_value, oriented_terms_are_alike, solutions_solve,
    substitution_keeps_the_value, terms_are_ordered,
};
use sqlite_items::Items;
use std::alloc::Global;

/// Steps 1 and 2 for each conjunction, up to the first that passes the number rule.
fn all_solved(alloc: Global, outer: u32, conjs: &[Conj]) -> Result<Items<Conj>, TermFault>
    requires { All (IsFormed outer) conjs.now }
    ensures { AreOutcomes (all_solved outer conjs.now) result }
{
    let mut made = Items::new(alloc);
    for conj in conjs {
        match solved(alloc, outer, conj) {
            Ok(done) => made.push(done)?,
            Err(fault) => return Err(fault),
        }
    }
    Ok(made)
}

/// The conjunctions simplified, behind these many inputs and outputs.
fn simplified(alloc: Global, outer: u32, conjs: &[Conj]) -> Result<Items<Conj>, TermFault>
    requires { All (IsFormed outer) conjs.now }
    ensures { IsSimplifiedList outer conjs.now result }
{
    normal_form_keeps_the_value();
    substitution_keeps_the_value();
    solutions_solve();
    oriented_terms_are_alike();
    terms_are_ordered();
    match all_solved(alloc, outer, conjs) {
        Ok(done) => Ok(tidied(alloc, outer, done.as_slice())?),
        Err(fault) => Err(fault),
    }
}

/// The relation with each conjunction simplified, without those that no pair meets by a false constant constraint, and those
/// equal to an earlier one. Each step takes n log n comparisons of atoms for the n monomials that it makes; each conjunction
/// is compared with all those before it.
pub fn simplify(alloc: Global, r: &Rel) -> Result<Rel, TermFault>
    requires { IsFormedRel r.now }
    ensures answer { IsSimplified r.now result }
    ensures formed { IfOk result (λ made. IsFormedRel made) }
    ensures meaning { IfOk result (λ made. IsSameRelation r.now made) }
{
    simplification_keeps_the_meaning();
    if r.conjs.len() == 0 {
        return Ok(Rel {
            ins: r.ins,
            outs: r.outs,
            conjs: Items::new(alloc),
        });
    }
    match simplified(alloc, r.ins + r.outs, r.conjs.as_slice()) {
        Ok(conjs) => Ok(Rel {
            ins: r.ins,
            outs: r.outs,
            conjs,
        }),
        Err(fault) => Err(fault),
    }
}

/// The set, as `simplify` makes a relation.
pub fn simplify_set(alloc: Global, s: &Set) -> Result<Set, TermFault>
    requires { IsFormedSet s.now }
    ensures answer { IsSimplifiedSet s.now result }
    ensures formed { IfOk result (λ made. IsFormedSet made) }
    ensures meaning { IfOk result (λ made. IsSameSet s.now made) }
{
    simplification_keeps_the_meaning();
    match simplified(alloc, s.arity, s.conjs.as_slice()) {
        Ok(conjs) => Ok(Set {
            arity: s.arity,
            conjs,
        }),
        Err(fault) => Err(fault),
    }
}
