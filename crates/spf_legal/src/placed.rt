//! Running units in the order of their places.

ghost use Rattle.std.specs.Prelude.{◌≡◌, ◌<◌, ℕ, OnErr, OnOk, length, true};
ghost use Rattle.std.specs.List.{range_with_len};
ghost use Rattle.spf_layers.specs.Legality.{IsLegal};
ghost use Rattle.spf_space.specs.Places.{ArePlacesOf, place_of};
ghost use Rattle.spf_space.specs.Units.{units_of};
ghost use Rattle.spf_touch.specs.Frame.{IsTouched, after_units};
ghost use Rattle.spf_touch.specs.Ordered.{is_in};
ghost use Rattle.spf_touch.specs.Repeated.{touches_at};

use spf_base::NoMemory;
use spf_space::{Places, Shape, units_in_order};
use spf_touch::{Cells, Touches, Units};
use std::alloc::Global;

/// Runs units one after another.
fn run_in_turn<U: Units, C: Cells>(units: &U, order: &[u32], cells: &mut C)
    requires units { (u : ℕ) → is_in order.now u ≡ true → u < (U.behavior units.now).count }
    requires own { (u e : ℕ) → is_in order.now u ≡ true → IsTouched ((U.behavior units.now).touches u) e → C.own cells.old e ≡ true }
    ensures own { (e : ℕ) → C.own cells.new e ≡ C.own cells.old e }
    ensures kept { C.kept cells.old cells.new }
    ensures value { (e : ℕ) → C.value cells.new e ≡ after_units (U.behavior units.now) order.now (C.value cells.old) e }
{
    for unit in order {
        units.run(*unit, cells);
    }
}

/// Runs all units in the order of legal places, which does what running them in textual order does. For n units it takes
/// n log n steps and what their runs cost, and 20 bytes for each.
pub fn run_placed<U: Units, C: Cells>(
    alloc: Global,
    units: &U,
    touches: &Touches,
    shape: &Shape,
    places: &Places,
    cells: &mut C,
) -> Result<(), NoMemory>
    requires count { (U.behavior units.now).count ≡ length (units_of shape.now.steps shape.now.loops) }
    requires touches { (u : ℕ) → u < length (units_of shape.now.steps shape.now.loops) → (U.behavior units.now).touches u ≡ touches_at touches.now u }
    requires places { ArePlacesOf shape.now.steps shape.now.loops places.now.tiles places.now.orders }
    requires legal { IsLegal (touches_at touches.now) (place_of shape.now.steps shape.now.loops places.now.tiles places.now.orders)
        (length (units_of shape.now.steps shape.now.loops)) }
    requires own { (u e : ℕ) → u < length (units_of shape.now.steps shape.now.loops) → IsTouched (touches_at touches.now u) e → C.own cells.old e ≡ true }
    ensures own { (e : ℕ) → C.own cells.new e ≡ C.own cells.old e }
    ensures kept { C.kept cells.old cells.new }
    ensures value { OnOk result ((e : ℕ) → C.value cells.new e
        ≡ after_units (U.behavior units.now) (range_with_len 0 (length (units_of shape.now.steps shape.now.loops))) (C.value cells.old) e) }
    ensures unchanged { OnErr result (cells.new ≡ cells.old) }
{
    let order = units_in_order(alloc, shape, places)?;
    run_in_turn(units, order.as_slice(), cells);
    Ok(())
}
