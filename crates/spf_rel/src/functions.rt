//! The outputs of a relation as terms in its inputs.

ghost use Rattle.std.specs.Prelude.{◌≡◌, ◌+◌, ◌<◌, ◌^◌, All, IfOk, Some};
ghost use Rattle.spf_rel.specs.Elimination.{IsReadyConj};
ghost use Rattle.spf_rel.specs.Function.{GiveOutputs, IsFormedFunction, IsFunction, Tells, function_of, function_of_one, single};
ghost use Rattle.spf_rel.specs.Meaning.{IsFormedRel};

use crate::inputs::any_mentions_from;
use crate::outputs::outputs_found;
use crate::relation::{Conj, Rel};
use crate::simplification::simplify;
use crate::simplifying_laws::simplified_terms_are_ready;
use spf_term::{
    Term, TermFault, normal_form_keeps_the_value, oriented_terms_are_alike, solutions_solve,
    substitution_keeps_the_value, terms_are_ordered,
};
use sqlite_items::Items;
use std::alloc::Global;

/// The conjunction, if there is but one.
fn single(mut conjs: Items<Conj>) -> Option<Conj>
    ensures { result ≡ single conjs }
{
    if conjs.len() != 1 {
        return None;
    }
    conjs.pop()
}

/// The outputs of a conjunction as terms in its inputs, where each can be solved for and no inner variable is left.
fn function_of_one(
    alloc: Global,
    ins: u32,
    outs: u32,
    conj: Conj,
) -> Result<Option<Items<Term>>, TermFault>
    requires room { ins + outs < 2 ^ 32 }
    requires ready { IsReadyConj conj }
    ensures answer { Tells (function_of_one ins outs (Some conj)) result }
    ensures formed { IfOk result (λ found. IsFormedFunction ins outs found) }
{
    match outputs_found(alloc, ins, outs, conj) {
        Ok(Some(terms)) => {
            if any_mentions_from(terms.as_slice(), ins) {
                return Ok(None);
            }
            Ok(Some(terms))
        }
        Ok(None) => Ok(None),
        Err(fault) => Err(fault),
    }
}

/// Each output of the relation as a term in its inputs, if it is simplified to one conjunction, in which each output in turn
/// can be solved for and no inner variable is left in the end. It takes as long as `simplify`, and then for each output as
/// long as the conjunction and the results that this makes, with their terms before those of one atom are added, take to
/// sort.
pub fn as_function(alloc: Global, r: &Rel) -> Result<Option<Items<Term>>, TermFault>
    requires { IsFormedRel r.now }
    ensures answer { IsFunction r.now result }
    ensures meaning { IfOk result (λ found. GiveOutputs r.now found) }
    ensures formed { IfOk result (λ found. IsFormedFunction r.now.ins r.now.outs found) }
{
    normal_form_keeps_the_value();
    substitution_keeps_the_value();
    solutions_solve();
    oriented_terms_are_alike();
    terms_are_ordered();
    simplified_terms_are_ready();
    match simplify(alloc, r) {
        Ok(made) => match single(made.conjs) {
            Some(conj) => function_of_one(alloc, r.ins, r.outs, conj),
            None => Ok(None),
        },
        Err(fault) => Err(fault),
    }
}
