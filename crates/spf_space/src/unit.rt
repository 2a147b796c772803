//! Units of work.

ghost use Rattle.std.specs.Prelude.{◌≡◌, ◌<◌, ◌↔◌, ℕ, length, slice_get, List, Some};
ghost use Rattle.spf_space.specs.Units.{IsEarlier, IsUnitOf, units_of};
ghost use Rattle.spf_space.specs.declared.shape.LoopShape.{LoopShape};

/// One iteration of a loop at one step. Steps, loops and positions count from 0; the iteration is the loop's lower bound
/// plus the position.
#[derive(Clone, Copy)]
pub struct Unit {
    pub step: u32,
    pub loop_no: u32,
    pub position: u32,
}

/// Law: the units of a shape are those of the list, each at one place, and places follow textual order.
pub fn ordinals_are_textual_order()
    ensures units { (steps : ℕ) (loops : List LoopShape) (u : Unit) → IsUnitOf steps loops u ↔ ((n : ℕ) × (slice_get (units_of steps loops) n ≡ Some u)) }
    ensures order { (steps : ℕ) (loops : List LoopShape) (u v : Unit) (m n : ℕ) →
        slice_get (units_of steps loops) m ≡ Some u → slice_get (units_of steps loops) n ≡ Some v → (m < n) ↔ IsEarlier u v }
{}
