//! The first pair of units of two groups whose numbers fall.

ghost use Rattle.std.specs.Prelude.{◌≡◌, ◌<◌, ◌≤◌, ℕ, true};
ghost use Rattle.std.specs.List.{AllPairs};
ghost use Rattle.spf_layers.specs.Legality.{IsFirst};
ghost use Rattle.spf_legal.specs.Falling.{AreBelow, FallsBetween, IsFirstBelow, IsLastAbove, earlier_of, earlier_pair, number_in};
ghost use Rattle.spf_space.specs.InOrder.{ArePlacesIn, units_in};
ghost use Rattle.spf_touch.specs.Ordered.{is_in};

use spf_space::{Places, Shape};

/// Of two pairs the one with the lesser second number, and with the greater first one where the second numbers are equal.
pub(crate) fn earlier(one: Option<(u32, u32)>, other: Option<(u32, u32)>) -> Option<(u32, u32)>
    ensures { result ≡ earlier_of one other }
{
    match (one, other) {
        (None, other) => other,
        (one, None) => one,
        (Some(one), Some(other)) => Some(earlier_of_two(one, other)),
    }
}

fn earlier_of_two(one: (u32, u32), other: (u32, u32)) -> (u32, u32)
    ensures { result ≡ earlier_pair one other }
{
    if one.1 < other.1 {
        one
    } else if other.1 < one.1 || one.0 < other.0 {
        other
    } else {
        one
    }
}

/// The greatest number of these units, or 0.
fn greatest_number(units: &[u32], shape: &Shape, places: &Places) -> u64
    requires places { ArePlacesIn shape.now places.now }
    requires units { AreBelow (units_in shape.now) units.now }
    ensures bound { (u : ℕ) → is_in units.now u ≡ true → number_in shape.now places.now u ≤ result }
    ensures some { 0 < result → (u : ℕ) × (is_in units.now u ≡ true) × (number_in shape.now places.now u ≡ result) }
{
    let mut greatest = 0;
    for unit in units {
        let number = places.number(shape, *unit);
        if greatest < number {
            greatest = number;
        }
    }
    greatest
}

/// The first of these units whose number is below the bound.
fn first_below(units: &[u32], bound: u64, shape: &Shape, places: &Places) -> Option<u32>
    requires places { ArePlacesIn shape.now places.now }
    requires units { AreBelow (units_in shape.now) units.now }
    requires ascending { AllPairs (λ (u v : ℕ). u < v) units.now }
    ensures { IsFirstBelow (number_in shape.now places.now) bound units.now result }
{
    for unit in units {
        if places.number(shape, *unit) < bound {
            return Some(*unit);
        }
    }
    None
}

/// The last of these units whose number is above the bound.
fn last_above(units: &[u32], bound: u64, shape: &Shape, places: &Places) -> Option<u32>
    requires places { ArePlacesIn shape.now places.now }
    requires units { AreBelow (units_in shape.now) units.now }
    requires ascending { AllPairs (λ (u v : ℕ). u < v) units.now }
    ensures { IsLastAbove (number_in shape.now places.now) bound units.now result }
{
    let mut last = None;
    for unit in units {
        if bound < places.number(shape, *unit) {
            last = Some(*unit);
        }
    }
    last
}

/// The first pair of a unit of `before` and one of `after` that has a lesser number. Linear in the units.
pub(crate) fn falls_between(
    before: &[u32],
    after: &[u32],
    shape: &Shape,
    places: &Places,
) -> Option<(u32, u32)>
    requires places { ArePlacesIn shape.now places.now }
    requires first { AreBelow (units_in shape.now) before.now }
    requires second { AreBelow (units_in shape.now) after.now }
    requires rising { AllPairs (λ (u v : ℕ). u < v) before.now }
    requires ascending { AllPairs (λ (u v : ℕ). u < v) after.now }
    ensures { IsFirst (FallsBetween (number_in shape.now places.now) before.now after.now) result }
{
    let greatest = greatest_number(before, shape, places);
    match first_below(after, greatest, shape, places) {
        None => None,
        Some(q) => match last_above(before, places.number(shape, q), shape, places) {
            None => None,
            Some(p) => Some((p, q)),
        },
    }
}
