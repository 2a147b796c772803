//! What it means that a walk has no fault.

ghost use Rattle.std.specs.Prelude.{◌≡◌, ◌<◌, ℕ, None, length};
ghost use Rattle.spf_term.specs.Environment.{Environment};
ghost use Rattle.spf_kernel.specs.declared.tree.Tree.{Tree};
ghost use Rattle.spf_space.specs.Layout.{cells_in, iterations};
ghost use Rattle.spf_store.specs.Accesses.{touches_of};
ghost use Rattle.spf_store.specs.FirstFault.{AreInRange, first_fault};
ghost use Rattle.spf_store.specs.Shaped.{data_of, loops_of};
ghost use Rattle.spf_touch.specs.Frame.{IsTouched};
ghost use Rattle.spf_touch.specs.Repeated.{touches_at};

/// Law: where the walk takes place and has no fault, each value on each unit's way is allowed.
pub fn no_fault_is_in_range()
    ensures { (env : Environment) (tree : Tree) (steps : ℕ) → first_fault env tree steps ≡ None → 0 < steps → AreInRange env tree }
{}

/// Law: there is a touch list for each iteration of a step, and where the walk has no fault, each touched element is a cell.
pub fn touched_elements_are_cells()
    ensures lists { (env : Environment) (tree : Tree) (steps : ℕ) → length (touches_of env tree steps) ≡ iterations (loops_of env tree) }
    ensures inside { (env : Environment) (tree : Tree) (steps : ℕ) → first_fault env tree steps ≡ None →
        (u e : ℕ) → IsTouched (touches_at (touches_of env tree steps) u) e → e < cells_in (data_of env tree) }
{}
