//! What the units of a kernel do together.

ghost use Rattle.std.specs.Prelude.{◌≡◌, ℕ, ℤ, length};
ghost use Rattle.std.specs.List.{range_with_len};
ghost use Rattle.spf_term.specs.Environment.{Environment};
ghost use Rattle.spf_touch.specs.Frame.{FrameLaw, after_units};
ghost use Rattle.spf_touch.specs.Repeated.{touches_at};
ghost use Rattle.spf_kernel.specs.declared.tree.Tree.{Tree};
ghost use Rattle.spf_space.specs.Units.{units_of};
ghost use Rattle.spf_store.specs.Accesses.{touches_of};
ghost use Rattle.spf_store.specs.Shaped.{loops_of};
ghost use Rattle.spf_store.specs.Source.{source_result};
ghost use Rattle.spf_store.specs.Behavior.{source_behavior};

/// Law: the units of a kernel keep the frame law, and all of them, run in ascending order, give the source result.
pub fn ascending_units_are_the_source()
    ensures frame { (env : Environment) (tree : Tree) (steps : ℕ) → FrameLaw (source_behavior env tree steps) }
    ensures count { (env : Environment) (tree : Tree) (steps : ℕ) → (source_behavior env tree steps).count ≡ length (units_of steps (loops_of env tree)) }
    ensures touches { (env : Environment) (tree : Tree) (steps : ℕ) → (source_behavior env tree steps).touches ≡ touches_at (touches_of env tree steps) }
    ensures source { (env : Environment) (tree : Tree) (steps : ℕ) (values : ℕ → ℤ) (e : ℕ) →
        after_units (source_behavior env tree steps) (range_with_len 0 (source_behavior env tree steps).count) values e ≡ source_result env tree steps values e }
{}
