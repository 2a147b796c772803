//! The numbers that a kernel's index expressions read, and their values.

ghost use Rattle.std.specs.Prelude.{◌≡◌, ◌<◌, [], ◌∷◌, ℕ, ℤ, List, All, Some, slice_get};
ghost use Rattle.spf_term.specs.Bounded.{AreWithin};
ghost use Rattle.spf_term.specs.Environment.{Environment};
ghost use Rattle.spf_kernel.specs.Bounded.{IsBoundedItem};
ghost use Rattle.spf_kernel.specs.declared.tree.Item.{Item};
ghost use Rattle.spf_kernel.specs.declared.tree.Loop.{Loop};
ghost use Rattle.spf_kernel.specs.declared.tree.Tree.{Tree};
ghost use Rattle.spf_space.specs.declared.unit.Unit.{Unit};
ghost use Rattle.spf_store.specs.Accepted.{IsAccepted};
ghost use Rattle.spf_store.specs.Shaped.{loop_shape};
ghost use Rattle.spf_store.specs.Small.{IsSmallItem};
ghost use Rattle.spf_store.specs.Source.{iteration_of};

use spf_term::bounded_terms_are_small;

/// Law: numbers that a kernel may be given are within 2^22, and so is the iteration of each of its units.
pub fn accepted_numbers_are_small()
    ensures numbers { (env : Environment) (tree : Tree) → IsAccepted env tree → AreWithin env [] }
    ensures iterations { (env : Environment) (tree : Tree) (unit : Unit) (each : Loop) → IsAccepted env tree →
        slice_get tree.loops unit.loop_no ≡ Some each → unit.position < (loop_shape env each).extent → AreWithin env (iteration_of env tree unit ∷ []) }
{}

/// Law: where the items of a kernel's loop read numbers within 2^22, each of their terms is small.
pub fn bounded_items_are_small()
    ensures { (env : Environment) (variables : List ℤ) (items : List Item) → AreWithin env variables → All IsBoundedItem items → All (IsSmallItem env variables) items }
{
    bounded_terms_are_small();
}
