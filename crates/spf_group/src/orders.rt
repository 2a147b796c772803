//! The three orders.

ghost use Rattle.std.specs.Prelude.{◌≡◌, ◌≤◌, ◌<◌, ℕ, IfOk, length, map};
ghost use Rattle.spf_perm.specs.Perm.{AreInverse, IsPerm};
ghost use Rattle.spf_group.specs.Keys.{CanOrder, IsSized, bucket_key, group_key, key_of, places_at, sort_key};
ghost use Rattle.spf_group.specs.Ordered.{IsOrderedBy};

use crate::key::Key;
use crate::keys::{Column, Keys};
use spf_base::NoMemory;
use spf_perm::{Perm, made};
use spf_space::Shape;
use spf_touch::Touches;
use std::alloc::Global;

/// The order of loop `of` by the packed place of the first touch of array `by`. `order` has the current position of each
/// source position, `now` the packed place of each place of the array. n log n in the positions, and linear in the touches.
pub fn lexgroup(
    alloc: Global,
    touches: &Touches,
    shape: &Shape,
    of: u32,
    by: u32,
    order: &Perm,
    now: &Perm,
) -> Result<Perm, NoMemory>
    requires { CanOrder touches.now shape.now of by order.now now.now }
    ensures { IfOk result (IsOrderedBy (λ position. group_key (places_at touches.now shape.now of by now.now position)) order.now) }
{
    ordered(alloc, touches, shape, of, by, order, now, Key::First)
}

/// The order of loop `of` by the list of the packed places of all touches of array `by`; else as `lexgroup`. n log n
/// comparisons of such lists.
pub fn lexsort(
    alloc: Global,
    touches: &Touches,
    shape: &Shape,
    of: u32,
    by: u32,
    order: &Perm,
    now: &Perm,
) -> Result<Perm, NoMemory>
    requires { CanOrder touches.now shape.now of by order.now now.now }
    ensures { IfOk result (IsOrderedBy (λ position. sort_key (places_at touches.now shape.now of by now.now position)) order.now) }
{
    ordered(alloc, touches, shape, of, by, order, now, Key::All)
}

/// The order of loop `of` by the packed place of the first touch of array `by`, divided by the size; else as `lexgroup`.
pub fn bucket(
    alloc: Global,
    touches: &Touches,
    shape: &Shape,
    of: u32,
    by: u32,
    order: &Perm,
    now: &Perm,
    size: u64,
) -> Result<Perm, NoMemory>
    requires there { CanOrder touches.now shape.now of by order.now now.now }
    requires size { 1 ≤ size }
    ensures { IfOk result (IsOrderedBy (λ position. bucket_key size (places_at touches.now shape.now of by now.now position)) order.now) }
{
    ordered(alloc, touches, shape, of, by, order, now, Key::Bucket(size))
}

fn ordered(
    alloc: Global,
    touches: &Touches,
    shape: &Shape,
    of: u32,
    by: u32,
    order: &Perm,
    now: &Perm,
    key: Key,
) -> Result<Perm, NoMemory>
    requires there { CanOrder touches.now shape.now of by order.now now.now }
    requires size { IsSized key }
    ensures { IfOk result (IsOrderedBy (λ position. key_of key (places_at touches.now shape.now of by now.now position)) order.now) }
{
    let start = shape.arrays.as_slice()[by as usize].start;
    let column = Column { start, now, key };
    let keys = Keys::of(alloc, column, touches, shape.before(of), order.len())?;
    let mut positions = positions_of(alloc, order)?;
    keys.sort(&mut positions)?;
    Ok(made(Perm::of_entries(positions).inverse(alloc))?)
}

/// The positions in their current order.
fn positions_of(alloc: Global, order: &Perm) -> Result<Vec<u32>, NoMemory>
    ensures { IfOk result (λ positions. AreInverse order.now positions.items × IsPerm positions.items) }
{
    let positions = made(order.inverse(alloc))?;
    entries_of(alloc, &positions)
}

/// Where each element goes.
fn entries_of(alloc: Global, perm: &Perm) -> Result<Vec<u32>, NoMemory>
    ensures { IfOk result (λ entries. entries.items ≡ perm.now) }
{
    let mut entries = Vec::new(alloc);
    for old in 0..perm.len() {
        entries.push(perm.at(old))?;
    }
    Ok(entries)
}
