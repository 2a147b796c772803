//! Units of work, and the law that they keep.

ghost use Rattle.std.specs.Prelude.{◌≡◌, ◌<◌, ℕ, ℤ, true, length, slice_get, Some};
ghost use Rattle.spf_touch.specs.Frame.{Behavior, FrameLaw, effect, IsTouched};

use crate::cells::Cells;
use crate::touch::Touch;

/// Units of work, numbered from 0. Each has its touched elements, and changes the cells as the frame law says.
pub trait Units {
    /// How many units there are, what each touches, and what it gives there.
    ghost behavior: { Self → Behavior };

    fn count(&self) -> u32
        ensures { result ≡ (behavior self.now).count };

    /// How many elements the unit touches.
    fn touch_count(&self, unit: u32) -> u32
        requires { unit < (behavior self.now).count }
        ensures { result ≡ length ((behavior self.now).touches unit) };

    fn touch(&self, unit: u32, nth: u32) -> Touch
        requires unit { unit < (behavior self.now).count }
        requires nth { nth < length ((behavior self.now).touches unit) }
        ensures { slice_get ((behavior self.now).touches unit) nth ≡ Some result };

    /// Runs the unit on the cells. It takes no memory.
    fn run<C: Cells>(&self, unit: u32, cells: &mut C)
        requires unit { unit < (behavior self.now).count }
        requires own { (e : ℕ) → IsTouched ((behavior self.now).touches unit) e → C.own cells.old e ≡ true }
        ensures own { (e : ℕ) → C.own cells.new e ≡ C.own cells.old e }
        ensures kept { C.kept cells.old cells.new }
        ensures effect { (e : ℕ) → C.value cells.new e
            ≡ effect ((behavior self.now).touches unit) ((behavior self.now).given unit (C.value cells.old)) (C.value cells.old) e };

    /// The frame law.
    ghost framed: { (units : Self) → FrameLaw (behavior units) };
}
