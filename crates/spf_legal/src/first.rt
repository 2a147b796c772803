//! The first reversed pair of all.

ghost use Rattle.std.specs.Prelude.{◌≡◌, ◌<◌, ℕ, length};
ghost use Rattle.spf_layers.specs.Fits.{Fits};
ghost use Rattle.spf_layers.specs.Groups.{element_groups};
ghost use Rattle.spf_layers.specs.Legality.{IsFirst, IsReversed};
ghost use Rattle.spf_legal.specs.Falling.{AreOrdered, FallsApart, number_in};
ghost use Rattle.spf_space.specs.InOrder.{ArePlacesIn, units_in};
ghost use Rattle.spf_space.specs.Places.{ArePlacesOf, place_of};
ghost use Rattle.spf_space.specs.Units.{units_of};
ghost use Rattle.spf_touch.specs.Repeated.{touches_at};

use crate::falls::{earlier, falls_between};
use spf_layers::Layers;
use spf_space::{Places, Shape};
use spf_touch::Touches;

/// The first of all pairs that stand apart in the groups of an element and whose numbers fall.
fn falls_at(layers: &Layers, shape: &Shape, places: &Places, element: u32) -> Option<(u32, u32)>
    requires places { ArePlacesIn shape.now places.now }
    requires there { element < length layers.now }
    requires ordered { AreOrdered (units_in shape.now) (element_groups layers.now element) }
    ensures { IsFirst (FallsApart (number_in shape.now places.now) (element_groups layers.now element)) result }
{
    let mut first = None;
    for n in 1..layers.groups(element) {
        let pair = falls_between(
            layers.group(element, n - 1),
            layers.group(element, n),
            shape,
            places,
        );
        first = earlier(first, pair);
    }
    first
}

/// The first of all conflicting pairs of units of which the later one isn't run behind the earlier one: that with the least
/// second unit, and then the greatest first one. Linear in the units of all groups and the elements; it takes no memory.
pub fn first_reversed(
    layers: &Layers,
    touches: &Touches,
    shape: &Shape,
    places: &Places,
) -> Option<(u32, u32)>
    requires fits { Fits (touches_at touches.now) (length (units_of shape.now.steps shape.now.loops)) layers.now }
    requires places { ArePlacesOf shape.now.steps shape.now.loops places.now.tiles places.now.orders }
    ensures { IsFirst (IsReversed (touches_at touches.now) (place_of shape.now.steps shape.now.loops places.now.tiles places.now.orders)
        (length (units_of shape.now.steps shape.now.loops))) result }
{
    let mut first = None;
    for element in 0..layers.elements() {
        first = earlier(first, falls_at(layers, shape, places, element));
    }
    first
}
