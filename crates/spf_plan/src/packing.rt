//! New packings of arrays.

ghost use Rattle.std.specs.Prelude.{◌≡◌, ◌<◌, ◌∷◌, All, IfOk, MatchOption, [], false, length, slice_index_or, true};
ghost use Rattle.spf_perm.specs.Perm.{IsPerm};
ghost use Rattle.spf_space.specs.Layout.{iterations};
ghost use Rattle.spf_space.specs.Places.{ArePlacesOf};
ghost use Rattle.spf_script.specs.Resolved.{AreAlike};
ghost use Rattle.spf_plan.specs.Packed.{AreNextPackings, CanPackBy, IsNextPacking, IsOrderFor, IsPackingBy, is_listed, marked};
ghost use Rattle.spf_plan.specs.Planned.{ArePacksOf};

use spf_base::NoMemory;
use spf_pack::{cpack, tilepack};
use spf_perm::Perm;
use spf_space::{Places, Shape};
use spf_touch::Touches;
use sqlite_items::Items;
use std::alloc::Global;

/// In which order touches are taken: those of the iterations of a loop in its current order, or those of all units in the order
/// of their places.
#[derive(Clone, Copy)]
pub(crate) enum TouchOrder {
    Loop { by: u32 },
    Tiles,
}

/// The array of this number, if it is listed. Linear in the list.
fn listed(arrays: &[u32], n: usize) -> Option<u32>
    ensures { MatchOption result (is_listed arrays.now n ≡ false) (λ array. (array ≡ n) × (is_listed arrays.now n ≡ true)) }
{
    for array in arrays {
        if *array as usize == n {
            return Some(*array);
        }
    }
    None
}

/// The array, and then the listed ones.
fn with_front(alloc: Global, array: u32, arrays: &[u32]) -> Result<Vec<u32>, NoMemory>
    ensures { IfOk result (λ members. members.items ≡ array ∷ arrays.now) }
{
    let mut members = Vec::with_capacity(alloc, arrays.len() + 1)?;
    members.push(array)?;
    members.extend_from_slice(arrays)?;
    Ok(members)
}

/// The packing of the array by the touches of the listed ones. Costs what the packing costs.
fn new_packing(
    alloc: Global,
    touches: &Touches,
    shape: &Shape,
    places: &Places,
    order: TouchOrder,
    arrays: &[u32],
    packs: &[Perm],
    array: u32,
) -> Result<Perm, NoMemory>
    requires can { CanPackBy touches.now shape.now places.now arrays.now packs.now order array }
    requires places { ArePlacesOf shape.now.steps shape.now.loops places.now.tiles places.now.orders }
    ensures perm { IfOk result IsPerm }
    ensures long { IfOk result (λ packing. length packing ≡ length (slice_index_or packs.now array [])) }
    ensures packing { IfOk result (IsPackingBy touches.now shape.now places.now arrays.now packs.now order array) }
{
    let members = with_front(alloc, array, arrays)?;
    match order {
        TouchOrder::Loop { by } => {
            let current = &places.orders.as_slice()[by as usize];
            cpack(
                alloc,
                touches,
                shape,
                by,
                current,
                members.as_slice(),
                packs,
            )
        }
        TouchOrder::Tiles => tilepack(alloc, touches, shape, places, members.as_slice(), packs),
    }
}

/// The packing of array `n` after the listed ones are packed: a new one if it is listed, and else that of before.
fn next_packing(
    alloc: Global,
    touches: &Touches,
    shape: &Shape,
    places: &Places,
    order: TouchOrder,
    arrays: &[u32],
    packs: &[Perm],
    n: usize,
) -> Result<Perm, NoMemory>
    requires lists { length touches.now ≡ iterations shape.now.loops }
    requires places { ArePlacesOf shape.now.steps shape.now.loops places.now.tiles places.now.orders }
    requires packs { ArePacksOf shape.now.arrays packs.now }
    requires order { IsOrderFor shape.now order }
    requires alike { AreAlike shape.now arrays.now }
    requires there { n < length packs.now }
    ensures { IfOk result (IsNextPacking arrays.now (IsPackingBy touches.now shape.now places.now arrays.now packs.now order) packs.now n) }
{
    match listed(arrays, n) {
        Some(array) => new_packing(alloc, touches, shape, places, order, arrays, packs, array),
        None => Ok(packs[n].copied(alloc)?),
    }
}

/// The packings of all arrays after the listed ones are packed, all from the packings before. Each listed array costs a pass
/// over the touches, at a cost that is linear in the listed arrays; the packings of the others are copied.
pub(crate) fn next_packs(
    alloc: Global,
    touches: &Touches,
    shape: &Shape,
    places: &Places,
    order: TouchOrder,
    arrays: &[u32],
    packs: &[Perm],
) -> Result<Items<Perm>, NoMemory>
    requires lists { length touches.now ≡ iterations shape.now.loops }
    requires places { ArePlacesOf shape.now.steps shape.now.loops places.now.tiles places.now.orders }
    requires packs { ArePacksOf shape.now.arrays packs.now }
    requires order { IsOrderFor shape.now order }
    requires alike { AreAlike shape.now arrays.now }
    ensures { IfOk result (AreNextPackings arrays.now (IsPackingBy touches.now shape.now places.now arrays.now packs.now order) packs.now) }
{
    let mut next = Items::new(alloc);
    for n in 0..packs.len() {
        let packing = next_packing(alloc, touches, shape, places, order, arrays, packs, n)?;
        next.push(packing)?;
    }
    Ok(next)
}

/// Sets the marks of the listed arrays. Linear in the list.
pub(crate) fn mark(marks: &mut Items<bool>, arrays: &[u32])
    requires { All (λ array. array < length marks.old) arrays.now }
    ensures { marks.new ≡ marked arrays.now marks.old }
{
    for array in arrays {
        marks.set(*array as usize, true);
    }
}
