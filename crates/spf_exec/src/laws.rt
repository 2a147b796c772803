//! What composed terms are at a position.

ghost use Rattle.std.specs.Prelude.{ℕ, ◌≡◌, ◌<◌, ◌+ℤ◌, ℤ, pos, List, ◌∷◌, [], Some, length, slice_get};
ghost use Rattle.spf_term.specs.Environment.{Environment};
ghost use Rattle.spf_term.specs.Value.{value};
ghost use Rattle.spf_term.specs.declared.term.Term.{Term};
ghost use Rattle.spf_kernel.specs.Named.{IsNamed, IsNamedTerm, counts_in};
ghost use Rattle.spf_kernel.specs.declared.tree.Loop.{Loop};
ghost use Rattle.spf_kernel.specs.declared.tree.Tree.{Tree};
ghost use Rattle.spf_store.specs.Shaped.{outer_value};
ghost use Rattle.spf_exec.specs.Composed.{composed_in, packed_in};
ghost use Rattle.spf_exec.specs.Executor.{AreTablesOf, HasPlace, HasPosition, executor_env, new_position, packed_place};
ghost use Rattle.spf_exec.specs.declared.program.Moved.{Moved};

use spf_term::{normal_form_keeps_the_value, substitution_keeps_the_value};

/// Law: at the new position of a source position a composed term has the value that the source's term has at the iteration
/// there, whatever the inner variable is; and where a term has the value of a place, the packed term has that of the packed
/// place.
pub fn composed_terms_keep_the_value()
    ensures composed { (tree : Tree) (moved : Moved) (env : Environment) (orders packings : List (List ℤ)) → IsNamed tree → AreTablesOf tree moved env orders packings →
        (loop_no : ℕ) (loop : Loop) (position : ℕ) (inner : ℤ) (term : Term) → slice_get tree.loops loop_no ≡ Some loop → HasPosition moved loop_no position → IsNamedTerm (counts_in tree.decls) 2 term →
        value (executor_env env orders packings) (pos (new_position moved loop_no position) ∷ inner ∷ []) (composed_in tree moved loop_no loop term) ≡ value env ((outer_value env loop.low +ℤ pos position) ∷ inner ∷ []) term }
    ensures packed { (tree : Tree) (moved : Moved) (env : Environment) (orders packings : List (List ℤ)) → AreTablesOf tree moved env orders packings →
        (variables : List ℤ) (array place : ℕ) (term : Term) → HasPlace moved array place → value (executor_env env orders packings) variables term ≡ pos place →
        value (executor_env env orders packings) variables (packed_in tree moved array term) ≡ pos (packed_place moved array place) }
{
    normal_form_keeps_the_value();
    substitution_keeps_the_value();
}
