//! Which tiles a chain of links leads from.

ghost use Rattle.std.specs.Prelude.{◌≡◌, ◌↔◌, ◌+◌, ◌*◌, ◌<◌, ◌≤◌, ℕ, All, AllPairs, IfOk, length, map, true, vec_items};
ghost use Rattle.spf_core.specs.History.{is_before};
ghost use Rattle.spf_tiles.specs.Before.{Leads};
ghost use Rattle.spf_tiles.specs.Links.{IsReached, Rises};
ghost use Rattle.spf_tiles.specs.TileSets.{Has};
ghost use Rattle.spf_touch.specs.Ordered.{is_in};

use crate::tile_sets::{WORDS, contains, insert, unite};
use spf_base::NoMemory;
use std::alloc::Global;

/// The lesser tiles that are linked to this one, and those before them.
fn reached(links: &[u64], before: &[u64], tile: u32) -> [u64; WORDS]
    requires few { tile < 1024 }
    requires links { tile * 16 + 16 ≤ length links.now }
    requires before { tile * 16 + 16 ≤ length before.now }
    ensures size { length result ≡ 16 }
    ensures reached { (a : ℕ) → a < 1024 → Has result a 0 ↔ IsReached links.now before.now tile tile a }
{
    let mut reached = [0u64; WORDS];
    for other in 0..tile {
        if contains(links, tile, other) {
            insert(&mut reached, 0, other);
            unite(&mut reached, 0, before, other);
        }
    }
    reached
}

/// Puts into the row of each tile those from which a chain of links leads to it.
fn chain(before: &mut [u64], links: &[u64], tiles: u32)
    requires tiles { tiles ≤ 1024 }
    requires links { length links.now ≡ tiles * 16 }
    requires before { length before.old ≡ tiles * 16 }
    requires empty { (a b : ℕ) → Has before.old a b → ⊥ }
    ensures { (a b : ℕ) → a < 1024 → b < tiles → Has before.new a b ↔ Leads (Rises links.now) a b }
{
    for tile in 0..tiles {
        let reached = reached(links, before, tile);
        unite(before, tile, &reached, 0);
    }
}

/// For each tile the row of those from which a chain of links leads to it.
fn chained(alloc: Global, links: &[u64], tiles: u32) -> Result<Vec<u64>, NoMemory>
    requires tiles { tiles ≤ 1024 }
    requires links { length links.now ≡ tiles * 16 }
    ensures size { IfOk result (λ before. length before.items ≡ tiles * 16) }
    ensures chains { IfOk result (λ before. (a b : ℕ) → a < 1024 → b < tiles → Has before.items a b ↔ Leads (Rises links.now) a b) }
{
    let mut before = vec![in alloc; 0u64; tiles as usize * WORDS]?;
    chain(before.as_mut_slice(), links, tiles);
    Ok(before)
}

/// The lesser tiles of the tile's row, ascending.
fn listed(alloc: Global, before: &[u64], tile: u32) -> Result<Vec<u32>, NoMemory>
    requires few { tile < 1024 }
    requires room { tile * 16 + 16 ≤ length before.now }
    ensures rising { IfOk result (λ list. AllPairs (λ (a b : ℕ). a < b) list.items) }
    ensures listed { IfOk result (λ list. (a : ℕ) → (is_in list.items a ≡ true) ↔ ((a < tile) × Has before.now a tile)) }
{
    let mut list = Vec::new(alloc);
    for other in 0..tile {
        if contains(before, tile, other) {
            list.push(other)?;
        }
    }
    Ok(list)
}

/// For each tile those from which a chain of links leads to it, ascending.
pub(crate) fn closed(alloc: Global, links: &[u64], tiles: u32) -> Result<Vec<Vec<u32>>, NoMemory>
    requires tiles { tiles ≤ 1024 }
    requires room { length links.now ≡ tiles * 16 }
    ensures count { IfOk result (λ lists. length lists.items ≡ tiles) }
    ensures rising { IfOk result (λ lists. All (AllPairs (λ a b. a < b)) (map vec_items lists.items)) }
    ensures below { IfOk result (λ lists. All (All (λ a. a < tiles)) (map vec_items lists.items)) }
    ensures chains { IfOk result (λ lists. (a b : ℕ) → b < tiles →
        (is_before (map vec_items lists.items) a b ≡ true) ↔ Leads (Rises links.now) a b) }
{
    let before = chained(alloc, links, tiles)?;
    let mut lists = Vec::with_capacity(alloc, tiles as usize)?;
    for tile in 0..tiles {
        lists.push(listed(alloc, before.as_slice(), tile)?)?;
    }
    Ok(lists)
}
