//! What each tile touches.

ghost use Rattle.std.specs.Prelude.{◌≡◌, ◌++◌, ◌<◌, ℕ, [], IfOk, OnOk, map, slice_index_or, true, vec_items};
ghost use Rattle.std.specs.List.{flat_map};
ghost use Rattle.std.specs.List.Sorted.{IsNonDecreasingBy, IsPermutation};
ghost use Rattle.spf_touch.specs.Ordered.{is_in};
ghost use Rattle.spf_tiles.specs.Feet.{AreFeet, IsFootOf};

use crate::joining::joined;
use spf_base::NoMemory;
use spf_touch::{Touch, Units};
use std::alloc::Global;

/// For each list of units the elements that they touch, in ascending order, each with the class in which they touch it
/// together. It takes n log n steps for n touches, and 8 bytes for each touch of one list while it works.
pub fn footprints<U: Units>(
    alloc: Global,
    units: &U,
    lists: &[Vec<u32>],
) -> Result<Vec<Vec<Touch>>, NoMemory>
    requires { (t u : ℕ) → is_in (slice_index_or (map vec_items lists.now) t []) u ≡ true → u < (U.behavior units.now).count }
    ensures { IfOk result (λ feet. AreFeet (U.behavior units.now).touches (map vec_items lists.now) (map vec_items feet.items)) }
{
    let mut feet = Vec::with_capacity(alloc, lists.len())?;
    for list in lists {
        feet.push(footprint(alloc, units, list.as_slice())?)?;
    }
    Ok(feet)
}

/// The elements that these units touch.
fn footprint<U: Units>(alloc: Global, units: &U, list: &[u32]) -> Result<Vec<Touch>, NoMemory>
    requires { (u : ℕ) → is_in list.now u ≡ true → u < (U.behavior units.now).count }
    ensures { IfOk result (λ foot. IsFootOf (U.behavior units.now).touches list.now foot.items) }
{
    let mut touches = touches_of(alloc, units, list)?;
    sort(&mut touches)?;
    Ok(joined(alloc, touches.as_slice())?)
}

/// The touches of these units, one behind the other.
fn touches_of<U: Units>(alloc: Global, units: &U, list: &[u32]) -> Result<Vec<Touch>, NoMemory>
    requires { (u : ℕ) → is_in list.now u ≡ true → u < (U.behavior units.now).count }
    ensures { IfOk result (λ touches. touches.items ≡ flat_map (U.behavior units.now).touches list.now) }
{
    let mut touches = Vec::new(alloc);
    for unit in list {
        push_touches(units, *unit, &mut touches)?;
    }
    Ok(touches)
}

fn push_touches<U: Units>(units: &U, unit: u32, touches: &mut Vec<Touch>) -> Result<(), NoMemory>
    requires { unit < (U.behavior units.now).count }
    ensures { OnOk result (touches.new.items ≡ touches.old.items ++ (U.behavior units.now).touches unit) }
{
    for nth in 0..units.touch_count(unit) {
        touches.push(units.touch(unit, nth))?;
    }
    Ok(())
}

/// Sorts the touches by their elements.
fn sort(touches: &mut Vec<Touch>) -> Result<(), NoMemory>
    ensures sorted { OnOk result (IsNonDecreasingBy (λ (touch : Touch). touch.element) touches.new.items) }
    ensures moved { OnOk result (IsPermutation touches.old.items touches.new.items) }
{
    touches.sort_by_key(|touch| touch.element)?;
    Ok(())
}
