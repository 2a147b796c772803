//! The executor's units: the source's, where elements go to their packed places.

ghost use Rattle.std.specs.Prelude.{◌≡◌, ◌<◌, ℕ, ℤ, Bool, List, true};
ghost use Rattle.spf_term.specs.Environment.{Environment};
ghost use Rattle.spf_touch.specs.Frame.{FrameLaw, IsTouched, after_unit};
ghost use Rattle.spf_touch.specs.Renaming.{Renaming, renamed_units};
ghost use Rattle.spf_kernel.specs.declared.tree.Tree.{Tree};
ghost use Rattle.spf_store.specs.Accesses.{accesses_of};
ghost use Rattle.spf_store.specs.Behavior.{source_behavior, unit_at};
ghost use Rattle.spf_store.specs.FirstFault.{AreInRange};
ghost use Rattle.spf_store.specs.Needs.{OwnsAll};
ghost use Rattle.spf_store.specs.Shaped.{starts_of};
ghost use Rattle.spf_exec.specs.Meaning.{AreBound, executor_effect, executor_trace};
ghost use Rattle.spf_exec.specs.declared.program.Moved.{Moved};

use crate::renamed::executor_units_are_renamed;

/// Law: the executor makes of cells what the renamed units of the source make of them, each at its new position, and who owns
/// what such a unit touches owns what the executor accesses for it. Renamed units of the source keep the frame law.
pub fn executor_runs_renamed_units()
    ensures effect { (env : Environment) (tree : Tree) (moved : Moved) (orders packings : List (List ℤ)) (renaming : Renaming) (steps u : ℕ) →
        AreBound env tree moved orders packings renaming → (0 < steps → AreInRange env tree) → u < (source_behavior env tree steps).count →
        (values : ℕ → ℤ) (e : ℕ) → executor_effect env tree moved orders packings (unit_at env tree steps u) values e ≡ after_unit (renamed_units renaming (source_behavior env tree steps)) u values e }
    ensures own { (env : Environment) (tree : Tree) (moved : Moved) (orders packings : List (List ℤ)) (renaming : Renaming) (steps u : ℕ) →
        AreBound env tree moved orders packings renaming → (0 < steps → AreInRange env tree) → u < (source_behavior env tree steps).count →
        (owns : ℕ → Bool) → ((e : ℕ) → IsTouched ((renamed_units renaming (source_behavior env tree steps)).touches u) e → owns e ≡ true) →
        OwnsAll owns (accesses_of (starts_of env tree) (executor_trace env tree moved orders packings (unit_at env tree steps u))) }
    ensures frame { (env : Environment) (tree : Tree) (renaming : Renaming) (steps : ℕ) → FrameLaw (renamed_units renaming (source_behavior env tree steps)) }
{
    executor_units_are_renamed();
}
