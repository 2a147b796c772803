//! Links between the tiles of units in neighbouring groups.

ghost use Rattle.std.specs.Prelude.{◌≡◌, ◌↔◌, ◌+◌, ◌*◌, ◌<◌, ◌≤◌, ℕ, All, IfOk, length, replicate, true};
ghost use Rattle.spf_layers.specs.Groups.{element_groups};
ghost use Rattle.spf_tiles.specs.Links.{AreWithin, HaveTile, LayersLink, NeighboursLink};
ghost use Rattle.spf_tiles.specs.TileSets.{AreAdded, Has};
ghost use Rattle.spf_touch.specs.Ordered.{is_in};

use crate::tile_sets::{WORDS, contains, insert, unite};
use spf_base::NoMemory;
use spf_layers::Layers;
use std::alloc::Global;

/// Links these tiles to those of the units, and gives the latter. Linear in the units, with 16 steps more for each of their
/// tiles.
fn link_group(
    links: &mut [u64],
    sources: &[u64; WORDS],
    units: &[u32],
    tile_of: &[u32],
) -> [u64; WORDS]
    requires size { length sources.now ≡ 16 }
    requires within { (u : ℕ) → is_in units.now u ≡ true → u < length tile_of.now }
    requires few { All (λ t. t < 1024) tile_of.now }
    requires room { All (λ t. t * 16 + 16 ≤ length links.old) tile_of.now }
    ensures size { length result ≡ 16 }
    ensures held { (c : ℕ) → c < 1024 → Has result c 0 ↔ HaveTile tile_of.now units.now c }
    ensures added { AreAdded links.old links.new (λ c d. HaveTile tile_of.now units.now d × Has sources.now c 0) }
{
    let mut held = [0u64; WORDS];
    for unit in units {
        let tile = tile_of[*unit as usize];
        if !contains(&held, 0, tile) {
            insert(&mut held, 0, tile);
            unite(links, tile, sources, 0);
        }
    }
    held
}

/// Links the tiles of each group of an element to those of the next one.
fn link_element(links: &mut [u64], layers: &Layers, tile_of: &[u32], element: u32)
    requires there { element < length layers.now }
    requires within { AreWithin (length tile_of.now) (element_groups layers.now element) }
    requires few { All (λ t. t < 1024) tile_of.now }
    requires room { All (λ t. t * 16 + 16 ≤ length links.old) tile_of.now }
    ensures { AreAdded links.old links.new
        (NeighboursLink tile_of.now (element_groups layers.now element) (length (element_groups layers.now element))) }
{
    let mut sources = [0u64; WORDS];
    for n in 0..layers.groups(element) {
        sources = link_group(links, &sources, layers.group(element, n), tile_of);
    }
}

/// Links the tiles of each group of each element to those of the next one.
fn link_elements(links: &mut [u64], layers: &Layers, tile_of: &[u32])
    requires within { (e : ℕ) → AreWithin (length tile_of.now) (element_groups layers.now e) }
    requires few { All (λ t. t < 1024) tile_of.now }
    requires room { All (λ t. t * 16 + 16 ≤ length links.old) tile_of.now }
    ensures { AreAdded links.old links.new (LayersLink tile_of.now layers.now (length layers.now)) }
{
    for element in 0..layers.elements() {
        link_element(links, layers, tile_of, element);
    }
}

/// The links of all elements: row d has the tiles that are linked to tile d.
pub(crate) fn links(
    alloc: Global,
    layers: &Layers,
    tile_of: &[u32],
    tiles: u32,
) -> Result<Vec<u64>, NoMemory>
    requires tiles { tiles ≤ 1024 }
    requires within { (e : ℕ) → AreWithin (length tile_of.now) (element_groups layers.now e) }
    requires below { All (λ t. t < tiles) tile_of.now }
    ensures size { IfOk result (λ links. length links.items ≡ tiles * 16) }
    ensures links { IfOk result (λ links. AreAdded (replicate (tiles * 16) 0) links.items (LayersLink tile_of.now layers.now (length layers.now))) }
{
    let mut links = vec![in alloc; 0u64; tiles as usize * WORDS]?;
    link_elements(links.as_mut_slice(), layers, tile_of);
    Ok(links)
}
