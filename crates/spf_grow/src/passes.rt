//! The numbers behind the seed units, and those before them.

ghost use Rattle.std.specs.Prelude.{◌≡◌, ◌<◌, ◌≤◌, ℕ, length, slice_index};
ghost use Rattle.spf_touch.specs.Repeated.{touches_at};
ghost use Rattle.spf_grow.specs.Bounds.{AreEmpty, AreGreatest, ArePassed, HaveGreatest, HaveLeast, depth_in};

use crate::extremes::{Extremes, greatest, note};
use crate::units::touched;
use spf_touch::Touches;

/// Gives each unit from `from` on the greatest number of the units before it with which it conflicts.
pub(crate) fn give_least(touches: &Touches, from: u32, numbers: &mut [u32], bounds: &mut [Extremes])
    requires units { ArePassed touches.now (length numbers.old) (length bounds.old) }
    ensures kept { (u : ℕ) → u < from → slice_index numbers.new u ≡ slice_index numbers.old u }
    ensures least { (first : ℕ) → first ≤ from → AreGreatest (touches_at touches.now) first from (slice_index numbers.old) bounds.old →
        HaveLeast (touches_at touches.now) first from (length numbers.old) (slice_index numbers.new) }
{
    for unit in from..numbers.len() as u32 {
        let touched = touched(touches, unit);
        let number = greatest(bounds, touched);
        numbers[unit as usize] = number;
        note(bounds, touched, number);
    }
}

/// Notes how far below the last part the numbers from `first` on are.
pub(crate) fn note_depths(
    touches: &Touches,
    first: u32,
    last: u32,
    numbers: &[u32],
    bounds: &mut [Extremes],
)
    requires order { first ≤ length numbers.now }
    requires units { ArePassed touches.now (length numbers.now) (length bounds.old) }
    requires below { (u : ℕ) → first ≤ u → u < length numbers.now → slice_index numbers.now u ≤ last }
    requires empty { AreEmpty bounds.old }
    ensures { AreGreatest (touches_at touches.now) first (length numbers.now) (depth_in (slice_index numbers.now) last) bounds.new }
{
    for unit in first..numbers.len() as u32 {
        note(
            bounds,
            touched(touches, unit),
            last - numbers[unit as usize],
        );
    }
}

/// Gives each unit before `first` a number as far below the last part as the deepest unit behind it with which it conflicts.
pub(crate) fn give_greatest(
    touches: &Touches,
    first: u32,
    last: u32,
    numbers: &mut [u32],
    bounds: &mut [Extremes],
)
    requires order { first ≤ length numbers.old }
    requires units { ArePassed touches.now (length numbers.old) (length bounds.old) }
    requires noted { AreGreatest (touches_at touches.now) first (length numbers.old) (depth_in (slice_index numbers.old) last) bounds.old }
    ensures kept { (u : ℕ) → first ≤ u → slice_index numbers.new u ≡ slice_index numbers.old u }
    ensures below { (u : ℕ) → u < first → slice_index numbers.new u ≤ last }
    ensures greatest { HaveGreatest (touches_at touches.now) 0 first (length numbers.old) last (slice_index numbers.new) }
{
    for done in 0..first {
        let unit = first - 1 - done;
        let touched = touched(touches, unit);
        let depth = greatest(bounds, touched);
        numbers[unit as usize] = last - depth;
        note(bounds, touched, depth);
    }
}
