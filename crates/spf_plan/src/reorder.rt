//! Orders of loops in places.

ghost use Rattle.std.specs.Prelude.{◌≡◌, ◌<◌, length};
ghost use Rattle.spf_perm.specs.Perm.{IsPerm};
ghost use Rattle.spf_space.specs.Places.{ArePlacesOf, order_of};
ghost use Rattle.spf_plan.specs.Taken.{BelongTogether, TriesOrder};

use spf_base::NoMemory;
use spf_layers::Layers;
use spf_legal::{first_reversed, legal_where_none_is_reversed};
use spf_perm::Perm;
use spf_space::{Places, Shape, Unit};
use spf_touch::Touches;
use std::alloc::Global;

/// Gives the loop this order, if that reverses no two conflicting units, and else answers the first two that it would. Linear in
/// the positions of the loop, and in the touches of all units times the loops.
pub(crate) fn try_order(
    alloc: Global,
    layers: &Layers,
    touches: &Touches,
    shape: &Shape,
    places: &mut Places,
    of: u32,
    order: Perm,
) -> Result<Option<(Unit, Unit)>, NoMemory>
    requires parts { BelongTogether layers.now touches.now shape.now }
    requires places { ArePlacesOf shape.now.steps shape.now.loops places.old.tiles places.old.orders }
    requires there { of < length shape.now.loops }
    requires positions { length order ≡ length (order_of places.old.orders of) }
    ensures perm { IsPerm order }
    ensures tiles { places.new.tiles ≡ places.old.tiles }
    ensures orders { TriesOrder touches.now shape.now places.old.tiles places.old.orders of order result places.new.orders }
{
    let old = places.orders.as_slice()[of as usize].copied(alloc)?;
    places.orders.set(of as usize, order);
    match first_reversed(layers, touches, shape, places) {
        None => {
            legal_where_none_is_reversed();
            Ok(None)
        }
        Some((earlier, later)) => {
            places.orders.set(of as usize, old);
            Ok(Some((shape.split(earlier), shape.split(later))))
        }
    }
}
