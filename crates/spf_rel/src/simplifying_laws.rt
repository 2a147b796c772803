//! What simplified conjunctions mean.

ghost use Rattle.std.specs.Prelude.{◌≡◌, ℕ, All, List};
ghost use Rattle.spf_rel.specs.Elimination.{IsReadyConj};
ghost use Rattle.spf_rel.specs.Meaning.{IsFormed, MeanTheSame};
ghost use Rattle.spf_rel.specs.Simplified.{IsSimplification};
ghost use Rattle.spf_rel.specs.declared.relation.Conj.{Conj};

use spf_term::{
    normal_form_is_normal, normal_form_keeps_the_value, oriented_terms_are_alike,
    oriented_terms_are_normal, solutions_solve, substitution_keeps_the_value, terms_are_ordered,
};

/// Law: simplified conjunctions have the points that the given ones have, and their variables stay below their number.
pub fn simplification_keeps_the_meaning()
    ensures meaning { (outer : ℕ) (conjs made : List Conj) → All (IsFormed outer) conjs → IsSimplification outer conjs made → MeanTheSame outer conjs made }
    ensures formed { (outer : ℕ) (conjs made : List Conj) → All (IsFormed outer) conjs → IsSimplification outer conjs made → All (IsFormed outer) made }
{
    normal_form_keeps_the_value();
    substitution_keeps_the_value();
    solutions_solve();
    oriented_terms_are_alike();
    terms_are_ordered();
}

/// Law: there is but one simplification.
pub fn simplification_is_unique()
    ensures { (outer : ℕ) (conjs made other : List Conj) → IsSimplification outer conjs made → IsSimplification outer conjs other → made ≡ other }
{
    terms_are_ordered();
}

/// Law: the terms of simplified conjunctions are normal and keep the number rule.
pub fn simplified_terms_are_ready()
    ensures { (outer : ℕ) (conjs made : List Conj) → IsSimplification outer conjs made → All IsReadyConj made }
{
    normal_form_is_normal();
    oriented_terms_are_normal();
}
