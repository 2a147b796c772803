//! What the executor does, compared with the source.

ghost use Rattle.std.specs.Prelude.{◌≡◌, ◌∷◌, [], ℕ, ℤ, All, Bool, List, map, pos};
ghost use Rattle.spf_term.specs.Environment.{Environment};
ghost use Rattle.spf_touch.specs.Renaming.{Renaming, renamed_access, unpacked};
ghost use Rattle.spf_kernel.specs.declared.tree.Tree.{Tree};
ghost use Rattle.spf_space.specs.declared.unit.Unit.{Unit};
ghost use Rattle.spf_store.specs.Accesses.{accesses_of};
ghost use Rattle.spf_store.specs.FirstFault.{IsInRange};
ghost use Rattle.spf_store.specs.Needs.{Allows, OwnsAll};
ghost use Rattle.spf_store.specs.Small.{IsSmallItem};
ghost use Rattle.spf_store.specs.Shaped.{starts_of};
ghost use Rattle.spf_store.specs.Source.{unit_effect, unit_trace};
ghost use Rattle.spf_exec.specs.Executor.{executor_env, new_position};
ghost use Rattle.spf_exec.specs.Meaning.{AreBound, IsUnit, executor_effect, executor_trace};
ghost use Rattle.spf_exec.specs.Rewritten.{executor_items};
ghost use Rattle.spf_exec.specs.declared.program.Moved.{Moved};

use spf_store::accepted_numbers_are_small;
use spf_term::{
    bounded_terms_are_small, normal_form_keeps_the_value, substitution_keeps_the_value,
};

/// Law: where each value on a unit's way is allowed, the executor makes of packed values, unpacked, what the unit makes of the
/// unpacked values; it accesses the places to which the elements go that the unit accesses, in the same order; and each of its
/// events may come on cells that own these places.
pub fn executor_units_are_renamed()
    ensures effects { (env : Environment) (tree : Tree) (moved : Moved) (orders packings : List (List ℤ)) (renaming : Renaming) (unit : Unit) →
        AreBound env tree moved orders packings renaming → IsUnit env tree unit → IsInRange env tree unit →
        (values : ℕ → ℤ) (e : ℕ) → executor_effect env tree moved orders packings unit values (renaming.to e) ≡ unit_effect env tree unit (unpacked renaming values) e }
    ensures accesses { (env : Environment) (tree : Tree) (moved : Moved) (orders packings : List (List ℤ)) (renaming : Renaming) (unit : Unit) →
        AreBound env tree moved orders packings renaming → IsUnit env tree unit → IsInRange env tree unit →
        accesses_of (starts_of env tree) (executor_trace env tree moved orders packings unit) ≡ map (renamed_access renaming) (accesses_of (starts_of env tree) (unit_trace env tree unit)) }
    ensures allowed { (env : Environment) (tree : Tree) (moved : Moved) (orders packings : List (List ℤ)) (renaming : Renaming) (unit : Unit) →
        AreBound env tree moved orders packings renaming → IsUnit env tree unit → IsInRange env tree unit → (owns : ℕ → Bool) →
        OwnsAll owns (accesses_of (starts_of env tree) (executor_trace env tree moved orders packings unit)) → All (Allows (starts_of env tree) owns) (executor_trace env tree moved orders packings unit) }
{
    normal_form_keeps_the_value();
    substitution_keeps_the_value();
}

/// Law: at a unit's new position each term of the executor's items is small wherever it is evaluated.
pub fn executor_items_are_small()
    ensures { (env : Environment) (tree : Tree) (moved : Moved) (orders packings : List (List ℤ)) (renaming : Renaming) (unit : Unit) →
        AreBound env tree moved orders packings renaming → (is : IsUnit env tree unit) →
        All (IsSmallItem (executor_env env orders packings) (pos (new_position moved unit.loop_no unit.position) ∷ [])) (executor_items tree moved unit.loop_no is.loop) }
{
    normal_form_keeps_the_value();
    substitution_keeps_the_value();
    bounded_terms_are_small();
    accepted_numbers_are_small();
}
