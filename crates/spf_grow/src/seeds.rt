//! The seed, and whether it falls.

ghost use Rattle.std.specs.Prelude.{◌≡◌, ◌↔◌, ◌+◌, ◌<◌, ◌≤◌, IfOk, IsTrue, None, length, slice_index};
ghost use Rattle.spf_layers.specs.Legality.{IsFirst};
ghost use Rattle.spf_touch.specs.Repeated.{touches_at};
ghost use Rattle.spf_grow.specs.Bounds.{AreEmpty, AreGreatest, ArePassed};
ghost use Rattle.spf_grow.specs.Growth.{Falls, HasSeed, IsLast, seed_number};

use crate::extremes::{Extremes, greatest, note};
use crate::units::touched;
use spf_base::NoMemory;
use spf_touch::{Touches, conflict};
use std::alloc::Global;

/// One number for each unit: those of the seed for the units from `first` on, and 0 for the others.
pub(crate) fn seeded(
    alloc: Global,
    count: u32,
    first: u32,
    seed: &[u32],
) -> Result<Vec<u32>, NoMemory>
    requires { first + length seed.now ≤ count }
    ensures each { IfOk result (λ numbers. length numbers.items ≡ count) }
    ensures seeded { IfOk result (λ numbers. HasSeed first seed.now (slice_index numbers.items)) }
{
    let mut numbers = vec![in alloc; 0; count as usize]?;
    for (position, part) in seed.iter().enumerate() {
        numbers[first as usize + position] = *part;
    }
    Ok(numbers)
}

/// Whether the two seed units conflict and the later one has the lesser number.
fn falls(touches: &Touches, first: u32, seed: &[u32], earlier: u32, later: u32) -> bool
    requires some { 0 < length touches.now }
    requires behind { first ≤ earlier }
    requires ascend { earlier < later }
    requires inside { later < first + length seed.now }
    ensures { IsTrue result ↔ Falls (touches_at touches.now) first seed.now earlier later }
{
    seed[(later - first) as usize] < seed[(earlier - first) as usize]
        && conflict(touched(touches, earlier), touched(touches, later))
}

/// The last of the seed units in front of this one from which the seed falls to it.
fn last_above(touches: &Touches, first: u32, seed: &[u32], unit: u32) -> Option<u32>
    requires some { 0 < length touches.now }
    requires behind { first ≤ unit }
    requires inside { unit < first + length seed.now }
    ensures { IsLast (Falls (touches_at touches.now) first seed.now) unit result }
{
    for back in 0..unit - first {
        let earlier = unit - 1 - back;
        if falls(touches, first, seed, earlier, unit) {
            return Some(earlier);
        }
    }
    None
}

/// The first two seed units along which the seed falls. While there are none, the numbers of the seed are noted.
pub(crate) fn first_fall(
    touches: &Touches,
    first: u32,
    seed: &[u32],
    bounds: &mut [Extremes],
) -> Option<(u32, u32)>
    requires units { ArePassed touches.now (first + length seed.now) (length bounds.old) }
    requires empty { AreEmpty bounds.old }
    ensures first { IsFirst (Falls (touches_at touches.now) first seed.now) result }
    ensures noted { result ≡ None → AreGreatest (touches_at touches.now) first (first + length seed.now) (seed_number first seed.now) bounds.new }
{
    for (position, part) in seed.iter().enumerate() {
        let unit = first + position as u32;
        let touched = touched(touches, unit);
        if *part < greatest(bounds, touched) {
            match last_above(touches, first, seed, unit) {
                Some(earlier) => return Some((earlier, unit)),
                None => unreachable!(),
            }
        }
        note(bounds, touched, *part);
    }
    None
}
