//! Compositions of graphs.

ghost use Rattle.std.specs.Prelude.{◌≡◌, ◌+◌, ◌-◌, ◌<◌, ◌^◌, ℕ, pos, List, [], ◌∷◌, Option, Result, Ok, Some, All, length};
ghost use Rattle.spf_term.specs.Bounded.{IsBounded};
ghost use Rattle.spf_term.specs.Normal.{normal};
ghost use Rattle.spf_term.specs.Substitution.{substituted};
ghost use Rattle.spf_term.specs.declared.fault.TermFault.{TermFault};
ghost use Rattle.spf_term.specs.declared.term.Atom.{Var};
ghost use Rattle.spf_term.specs.declared.term.Term.{Term, out-Term};
ghost use Rattle.spf_rel.specs.Function.{IsFunction};
ghost use Rattle.spf_rel.specs.Graph.{Compose, IsOnly, IsWithinSize, StayLight, alone, composed_term, graph, reversed, shifted};
ghost use Rattle.spf_rel.specs.Meaning.{IsFormedRel};
ghost use Rattle.spf_rel.specs.Operations.{HasRoomRel, compose, inverse};
ghost use Rattle.spf_rel.specs.Renumbering.{Variables};
ghost use Rattle.spf_rel.specs.Simplified.{IsSimplification, all_solved, choice};
ghost use Rattle.spf_rel.specs.declared.relation.Conj.{Conj};

use spf_term::{
    equations_are_bounded, equations_are_kept, equations_are_solved, normal_forms_are_no_larger,
    numbers_are_within_the_size, substitution_keeps_the_normal_form, substitutions_are_bounded,
    terms_are_ordered,
};

/// Law: the composition of graphs passes no test of the number rule when it is simplified, and what is made of it is the
/// equality of its output with the composed term, which is solved for the output and has inputs alone.
pub fn compositions_of_graphs_are_graphs()
    ensures solved { (ins : ℕ) (terms : List Term) (last : Term) → Compose ins terms last →
        all_solved (ins + 1) (compose (graph (length terms) (last ∷ [])) (graph ins terms)).conjs ≡ Ok (alone (length terms) ins (composed_term ins terms last) ∷ []) }
    ensures simplified { (ins : ℕ) (terms : List Term) (last : Term) (made : List Conj) → Compose ins terms last →
        IsSimplification (ins + 1) (compose (graph (length terms) (last ∷ [])) (graph ins terms)).conjs made → made ≡ alone 0 ins (composed_term ins terms last) ∷ [] }
    ensures function { (ins : ℕ) (terms : List Term) (last : Term) → Compose ins terms last →
        choice ins (ins + 1) [] (alone 0 ins (composed_term ins terms last)).equal ≡ Some (record { found = record { var = ins; by = normal (composed_term ins terms last) }; others = [] }) }
    ensures inputs { (ins : ℕ) (terms : List Term) (last : Term) → Compose ins terms last → Variables (λ number. number < ins) (normal (composed_term ins terms last)) }
{
    equations_are_solved();
    equations_are_kept();
    equations_are_bounded();
    numbers_are_within_the_size();
    terms_are_ordered();
}

/// Law: for the composition of graphs `as_function` answers the composed term, unless memory runs out.
pub fn compositions_have_one_function()
    ensures { (ins : ℕ) (terms : List Term) (last : Term) (made : Result (Option (List Term)) TermFault) → Compose ins terms last →
        IsFunction (compose (graph (length terms) (last ∷ [])) (graph ins terms)) made → IsOnly (normal (composed_term ins terms last)) made }
{
    compositions_of_graphs_are_graphs();
    normal_forms_are_no_larger();
    numbers_are_within_the_size();
}

/// Law: the relation from the numbers that terms have to their variables is formed, and its inverse is the graph of the terms.
pub fn inverses_are_graphs()
    ensures inverse { (ins : ℕ) (terms : List Term) → All (Variables (λ number. number < ins)) terms → inverse (reversed ins terms) ≡ graph ins terms }
    ensures formed { (ins : ℕ) (terms : List Term) → All (Variables (λ number. number < ins)) terms → ins + length terms < 2 ^ 32 → IsFormedRel (reversed ins terms) }
{}

/// Law: graphs of terms are formed, and there is room for their composition.
pub fn graphs_are_formed()
    ensures first { (ins : ℕ) (terms : List Term) (last : Term) → Compose ins terms last → IsFormedRel (graph ins terms) }
    ensures last { (ins : ℕ) (terms : List Term) (last : Term) → Compose ins terms last → IsFormedRel (graph (length terms) (last ∷ [])) }
    ensures room { (ins : ℕ) (terms : List Term) (last : Term) → Compose ins terms last → HasRoomRel (compose (graph (length terms) (last ∷ [])) (graph ins terms)) }
{}

/// Law: where the second of two terms is variable 1, the composed term has the normal form of the last one with the first in
/// place of variable 0.
pub fn first_variables_are_replaced()
    ensures { (ins : ℕ) (by inner term : Term) → Variables (λ number. number < ins) by → (out-Term inner).monos ≡ record { coef = pos 1; atom = Var 1 } ∷ [] → (out-Term inner).constant ≡ pos 0 →
        Variables (λ number. number < 2) term → normal (composed_term ins (by ∷ inner ∷ []) term) ≡ normal (substituted 0 by term) }
{
    substitution_keeps_the_normal_form();
}

/// Law: index expressions of a kernel stay within the number rule when an iteration and an inner variable come in place of
/// their variables, and so do packing functions of what this makes.
pub fn compositions_stay_light()
    ensures composed { (start : ℕ) (iteration inner term : Term) → IsWithinSize 65 (2 ^ 34 + 2 ^ 30 + 1) (2 ^ 26 + 1) iteration → IsWithinSize 1 1 1 inner → IsWithinSize 64 (2 ^ 34 + 2 ^ 30) (2 ^ 26) term →
        StayLight start (iteration ∷ inner ∷ []) (shifted start term) }
    ensures bounded { (term : Term) → IsBounded term → IsWithinSize 64 (2 ^ 34 + 2 ^ 30) (2 ^ 26) term }
    ensures packed { (start : ℕ) (place packed : Term) → IsWithinSize 4224 (2 ^ 61 - 2) (2 ^ 61) place → IsWithinSize 2 2 2 packed → StayLight start (place ∷ []) (shifted start packed) }
{
    normal_forms_are_no_larger();
    substitutions_are_bounded();
    numbers_are_within_the_size();
}
