//! Parts that are ranges of a breadth-first order.

ghost use Rattle.std.specs.Prelude.{◌≡◌, ◌≢◌, ◌<◌, ◌≤◌, ◌/◌, ◌^◌, ℕ, All, IfOk, length, slice_index};
ghost use Rattle.std.specs.Int.{div_ceil};
ghost use Rattle.spf_seed.specs.BreadthFirst.{IsBreadthFirst};
ghost use Rattle.spf_seed.specs.Spread.{IsSpread};
ghost use Rattle.spf_seed.specs.View.{AreNeighbours, IsView, positions};

use crate::inverted::inverted;
use crate::listing::Listing;
use crate::view::SeedView;
use spf_base::NoMemory;
use std::alloc::Global;

/// The positions in breadth-first order.
fn breadth_first(alloc: Global, view: &SeedView) -> Result<Vec<u32>, NoMemory>
    requires { IsView view.now }
    ensures { IfOk result (λ order. IsBreadthFirst (AreNeighbours view.now) (positions view.now) order.items) }
{
    let count = view.positions();
    let entries = inverted(alloc, view)?;
    let mut listing = Listing::new(alloc, count, entries.as_slice())?;
    for position in 0..count {
        if !listing.flags[position as usize] {
            let from = listing.order.len();
            listing.put(position)?;
            listing.exhaust(entries.as_slice(), view, from)?;
        }
    }
    Ok(listing.order)
}

/// How many positions a part takes.
fn per_part(count: u32, parts: u32) -> u32
    requires { 1 ≤ parts }
    ensures { result ≡ div_ceil count parts }
{
    count.div_ceil(parts)
}

/// For each place of the order the position there gets the place divided by the number of positions of a part.
fn parts_along(alloc: Global, order: &[u32], parts: u32) -> Result<Vec<u32>, NoMemory>
    requires some { 1 ≤ parts }
    requires few { length order.now < 2 ^ 32 }
    requires below { (r : ℕ) → r < length order.now → slice_index order.now r < length order.now }
    requires distinct { (r s : ℕ) → r < s → s < length order.now → slice_index order.now r ≢ slice_index order.now s }
    ensures long { IfOk result (λ list. length list.items ≡ length order.now) }
    ensures each { IfOk result (λ list. (r : ℕ) → r < length order.now → slice_index list.items (slice_index order.now r) ≡ r / div_ceil (length order.now) parts) }
    ensures below { IfOk result (λ list. All (λ part. part < parts) list.items) }
{
    let size = per_part(order.len() as u32, parts);
    let mut list = vec![in alloc; 0; order.len()]?;
    for (place, position) in order.iter().enumerate() {
        list[*position as usize] = place as u32 / size;
    }
    Ok(list)
}

/// The parts of the positions, where each part takes as many neighbours of a breadth-first order: it begins with position 0,
/// goes on with the neighbours of each listed position, in ascending order, and where there are no more with the least
/// position that isn't listed. n log n in the elements touched at all positions, with some 16 bytes for each.
pub fn spread(alloc: Global, view: &SeedView) -> Result<Vec<u32>, NoMemory>
    requires { IsView view.now }
    ensures parts { IfOk result (λ list. IsSpread view.now list.items) }
    ensures below { IfOk result (λ list. All (λ part. part < view.now.parts) list.items) }
{
    let order = breadth_first(alloc, view)?;
    parts_along(alloc, order.as_slice(), view.parts)
}
