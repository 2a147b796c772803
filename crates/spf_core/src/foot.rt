//! What a tile takes from the cells and gives back to them.

ghost use Rattle.std.specs.Prelude.{◌≡◌, ◌<◌, ℕ, All, AllPairs, Some, is_some, length, map, true, vec_items};
ghost use Rattle.spf_touch.specs.Copy.{copy_at, value_or_0};
ghost use Rattle.spf_touch.specs.Frame.{IsTouched, blend_at, class_at};
ghost use Rattle.spf_core.specs.Copies.{value_in};
ghost use Rattle.spf_core.specs.Replay.{values_of};
ghost use Rattle.spf_core.specs.Stand.{widest_of};

use crate::copied::Copied;
use spf_touch::{Cells, Touch};

/// Copies the elements of the foot: their values, or the neutral number of a reduction class.
pub(crate) fn copy_foot(foot: &[Touch], cells: &[i64], copied: &mut Copied)
    requires rising { AllPairs (λ a b. a.element < b.element) foot.now }
    requires places { All (λ touch. touch.element < length cells.now) foot.now }
    requires room { length copied.old ≡ length cells.now }
    ensures room { length copied.new ≡ length cells.now }
    ensures values { (e : ℕ) → value_in copied.new e ≡ copy_at (class_at foot.now e) (values_of cells.now e) }
{
    copied.clear();
    for touch in foot {
        copied.put(touch.element, first_value(touch, cells));
    }
}

fn first_value(touch: &Touch, cells: &[i64]) -> i64
    requires { touch.now.element < length cells.now }
    ensures { Some result ≡ copy_at (Some touch.now.class) (values_of cells.now touch.now.element) }
{
    if touch.class.is_reduction() {
        touch.class.neutral()
    } else {
        cells[touch.element as usize]
    }
}

/// Blends the copy's elements of the foot into the cells.
pub(crate) fn merge_foot(foot: &[Touch], copied: &Copied, cells: &mut [i64])
    requires rising { AllPairs (λ a b. a.element < b.element) foot.now }
    requires places { All (λ touch. touch.element < length cells.old) foot.now }
    requires keys { (e : ℕ) → IsTouched foot.now e → is_some (value_in copied.now e) ≡ true }
    ensures { (e : ℕ) → values_of cells.new e ≡ blend_at (class_at foot.now e) (values_of cells.old e) (value_or_0 (value_in copied.now e)) }
{
    for touch in foot {
        let old = cells[touch.element as usize];
        let new = touch.class.blend(old, copied.get(touch.element));
        cells[touch.element as usize] = new;
    }
}

/// The number of elements of the greatest foot.
pub(crate) fn widest_foot(feet: &[Vec<Touch>]) -> usize
    ensures { result ≡ widest_of (map vec_items feet.now) }
{
    let mut widest = 0;
    for foot in feet {
        if widest < foot.len() {
            widest = foot.len();
        }
    }
    widest
}
