//! The units of each tile in turn.

ghost use Rattle.std.specs.Prelude.{◌≡◌, ◌<◌, ◌++◌, ℕ, [], All, IfOk, OnOk, length, map, slice_index_or, true, vec_items};
ghost use Rattle.spf_space.specs.Places.{ArePlacesOf, place_of};
ghost use Rattle.spf_space.specs.Units.{units_of};
ghost use Rattle.spf_tiles.specs.Lists.{AreLists, dealt_to};
ghost use Rattle.spf_touch.specs.Ordered.{is_in};

use spf_base::NoMemory;
use spf_space::{Places, Shape, units_in_order};
use std::alloc::Global;

/// For each tile its units by their ordinals, in the order of their places. It takes n log n steps for n units; while it works
/// it takes 20 bytes for each unit, and the lists take 4.
pub fn lists(
    alloc: Global,
    shape: &Shape,
    places: &Places,
    tiles: u32,
) -> Result<Vec<Vec<u32>>, NoMemory>
    requires places { ArePlacesOf shape.now.steps shape.now.loops places.now.tiles places.now.orders }
    requires below { All (λ (tile : ℕ). tile < tiles) places.now.tiles }
    ensures { IfOk result (λ lists. AreLists (place_of shape.now.steps shape.now.loops places.now.tiles places.now.orders)
        (length (units_of shape.now.steps shape.now.loops)) tiles (map vec_items lists.items)) }
{
    let units = units_in_order(alloc, shape, places)?;
    let mut lists = no_units(alloc, tiles)?;
    deal(units.as_slice(), places.tiles.as_slice(), &mut lists)?;
    Ok(lists)
}

/// An empty list for each tile.
fn no_units(alloc: Global, tiles: u32) -> Result<Vec<Vec<u32>>, NoMemory>
    ensures tiles { IfOk result (λ lists. length lists.items ≡ tiles) }
    ensures empty { IfOk result (λ lists. (t : ℕ) → slice_index_or (map vec_items lists.items) t [] ≡ []) }
{
    let mut lists = Vec::with_capacity(alloc, tiles as usize)?;
    for _ in 0..tiles {
        lists.push(Vec::new(alloc))?;
    }
    Ok(lists)
}

/// Puts each unit behind those of its tile.
fn deal(units: &[u32], tiles: &[u32], lists: &mut Vec<Vec<u32>>) -> Result<(), NoMemory>
    requires units { (u : ℕ) → is_in units.now u ≡ true → u < length tiles.now }
    requires tiles { All (λ (tile : ℕ). tile < length lists.old.items) tiles.now }
    ensures tiles { length lists.new.items ≡ length lists.old.items }
    ensures units { OnOk result ((t : ℕ) → slice_index_or (map vec_items lists.new.items) t [] ≡ slice_index_or (map vec_items lists.old.items) t [] ++ dealt_to t tiles.now units.now) }
{
    for unit in units {
        let tile = tiles[*unit as usize];
        lists[tile as usize].push(*unit)?;
    }
    Ok(())
}
