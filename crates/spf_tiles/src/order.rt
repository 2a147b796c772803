//! The order of the tiles.

ghost use Rattle.std.specs.Prelude.{◌≡◌, ◌↔◌, ◌<◌, ◌≤◌, ℕ, All, AllPairs, IfOk, List, length, true};
ghost use Rattle.spf_core.specs.History.{is_before};
ghost use Rattle.spf_layers.specs.Fits.{Fits};
ghost use Rattle.spf_space.specs.Places.{ArePlacesOf};
ghost use Rattle.spf_space.specs.Units.{units_of};
ghost use Rattle.spf_tiles.specs.Before.{Before};
ghost use Rattle.spf_tiles.specs.Links.{AreLegalFor};
ghost use Rattle.spf_touch.specs.declared.touch.Touch.{Touch};

use crate::closure::closed;
use crate::links::links;
use spf_base::NoMemory;
use spf_core::Order;
use spf_layers::Layers;
use spf_space::{Places, Shape};
use std::alloc::Global;

/// Which tiles come before which. Linear in the touches, with 16 steps for each tile of each group, and then at most
/// K^2 / 2 times 16 steps for K tiles. While it works it takes 256 bytes for each tile, and the order 4 for each pair.
pub fn tile_order(
    alloc: Global,
    layers: &Layers,
    shape: &Shape,
    places: &Places,
    tiles: u32,
) -> Result<Order, NoMemory>
    requires places { ArePlacesOf shape.now.steps shape.now.loops places.now.tiles places.now.orders }
    requires legal { AreLegalFor layers.now shape.now places.now }
    requires some { 1 ≤ tiles }
    requires few { tiles ≤ 1024 }
    requires below { All (λ t. t < tiles) places.now.tiles }
    ensures count { IfOk result (λ order. length order ≡ tiles) }
    ensures ascending { IfOk result (λ order. All (AllPairs (λ (a b : ℕ). a < b)) order) }
    ensures before { IfOk result (λ order. (touches : ℕ → List Touch) → Fits touches (length (units_of shape.now.steps shape.now.loops)) layers.now →
        (a b : ℕ) → (is_before order a b ≡ true) ↔ Before touches places.now.tiles a b) }
{
    let links = links(alloc, layers, places.tiles.as_slice(), tiles)?;
    let before = closed(alloc, links.as_slice(), tiles)?;
    Ok(Order::of_lists(before))
}
