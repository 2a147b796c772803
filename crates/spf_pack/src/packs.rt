//! The two packings.

ghost use Rattle.std.specs.Prelude.{◌≡◌, ◌+◌, ◌<◌, ◌≤◌, ◌^◌, ℕ, All, IfOk, Ok, length, map};
ghost use Rattle.spf_perm.specs.Perm.{AreInverse, IsPerm};
ghost use Rattle.spf_pack.specs.FirstTouch.{IsFirstTouchPacking, first_touch_order, in_turn};
ghost use Rattle.spf_pack.specs.Packs.{CanCpack, CanTilepack, IsArrayOf, IsCpacking, IsTilepacking, first_packing, touched_by};

use crate::listing::Listing;
use spf_base::NoMemory;
use spf_perm::{Perm, made};
use spf_space::{ArrayShape, Places, Shape, units_in_order};
use spf_touch::Touches;
use std::alloc::Global;

/// The packing of the first of these arrays in the order in which iterations of loop `by` touch places of the arrays.
/// `order` has the current position of each iteration of the loop, `now` by the number of each array the present packing.
/// Linear in the touches times the listed arrays, and in the places, with 8 bytes for each iteration of the loop.
pub fn cpack(
    alloc: Global,
    touches: &Touches,
    shape: &Shape,
    by: u32,
    order: &Perm,
    members: &[u32],
    now: &[Perm],
) -> Result<Perm, NoMemory>
    requires { CanCpack touches.now shape.now by order.now members.now now.now }
    ensures packing { IfOk result (IsCpacking touches.now shape.now by order.now members.now now.now) }
    ensures long { IfOk result (λ packing. length packing ≡ length (first_packing members.now now.now)) }
{
    let units = iterations_in_order(alloc, shape.before(by), order)?;
    packed(
        alloc,
        touches,
        shape.arrays.as_slice(),
        units.as_slice(),
        members,
        &now[members[0] as usize],
    )
}

/// The packing of the first of these arrays in the order in which all units, in the order of their places, touch places of
/// the arrays; else as `cpack`. Moreover n log n in the units, with 20 bytes for each.
pub fn tilepack(
    alloc: Global,
    touches: &Touches,
    shape: &Shape,
    places: &Places,
    members: &[u32],
    now: &[Perm],
) -> Result<Perm, NoMemory>
    requires { CanTilepack touches.now shape.now places.now members.now now.now }
    ensures packing { IfOk result (IsTilepacking touches.now shape.now places.now members.now now.now) }
    ensures long { IfOk result (λ packing. length packing ≡ length (first_packing members.now now.now)) }
{
    let units = units_in_order(alloc, shape, places)?;
    packed(
        alloc,
        touches,
        shape.arrays.as_slice(),
        units.as_slice(),
        members,
        &now[members[0] as usize],
    )
}

/// The numbers from `first` on, in the order that the permutation of them gives.
fn iterations_in_order(alloc: Global, first: u32, order: &Perm) -> Result<Vec<u32>, NoMemory>
    requires { first + length order.now < 2 ^ 32 }
    ensures { IfOk result (λ units. units.items ≡ map (λ iteration. first + iteration) (in_turn order.now)) }
{
    let iterations = made(order.inverse(alloc))?;
    let mut units = Vec::with_capacity(alloc, iterations.len() as usize)?;
    for position in 0..iterations.len() {
        units.push(first + iterations.at(position))?;
    }
    Ok(units)
}

/// The places of an array in the order in which these units touch them, and then the others by the present packing.
fn in_first_touch_order(
    alloc: Global,
    touches: &Touches,
    arrays: &[ArrayShape],
    units: &[u32],
    members: &[u32],
    now: &Perm,
) -> Result<Vec<u32>, NoMemory>
    requires members { All (IsArrayOf arrays.now (length now.now)) members.now }
    requires touches { 0 < length units.now → 0 < length touches.now }
    ensures order { IfOk result (λ places. places.items ≡ first_touch_order (touched_by touches.now arrays.now members.now units.now) now.now) }
    ensures perm { IfOk result (λ places. IsPerm places.items) }
    ensures long { IfOk result (λ places. length places.items ≡ length now.now) }
{
    let mut listing = Listing::new(alloc, now.len())?;
    listing.put_units(arrays, members, touches, units)?;
    listing.put_all(&made(now.inverse(alloc))?)?;
    Ok(listing.order)
}

/// The packing in that order.
fn packed(
    alloc: Global,
    touches: &Touches,
    arrays: &[ArrayShape],
    units: &[u32],
    members: &[u32],
    now: &Perm,
) -> Result<Perm, NoMemory>
    requires members { All (IsArrayOf arrays.now (length now.now)) members.now }
    requires touches { 0 < length units.now → 0 < length touches.now }
    ensures packing { IfOk result (IsFirstTouchPacking (touched_by touches.now arrays.now members.now units.now) now.now) }
    ensures long { IfOk result (λ packing. length packing ≡ length now.now) }
{
    let order = in_first_touch_order(alloc, touches, arrays, units, members, now)?;
    Ok(made(Perm::of_entries(order).inverse(alloc))?)
}
