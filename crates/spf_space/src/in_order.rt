//! The units in the order of their places.

ghost use Rattle.std.specs.Prelude.{◌≡◌, IfOk, map};
ghost use Rattle.std.specs.List.{range_with_len};
ghost use Rattle.std.specs.List.Sorted.{IsNonDecreasingBy, IsPermutation};
ghost use Rattle.spf_space.specs.InOrder.{AreInOrder, ArePlacesIn, AreTurns, turn_of, units_in};

use crate::places::Places;
use crate::shape::Shape;
use spf_base::NoMemory;
use std::alloc::Global;

/// A unit, and the number of its place.
#[derive(Clone, Copy)]
pub(crate) struct Turn {
    pub(crate) number: u64,
    pub(crate) unit: u32,
}

/// All units, in textual order.
fn listed(alloc: Global, shape: &Shape, places: &Places) -> Result<Vec<Turn>, NoMemory>
    requires { ArePlacesIn shape.now places.now }
    ensures { IfOk result (λ turns. turns.items ≡ map (turn_of shape.now places.now) (range_with_len 0 (units_in shape.now))) }
{
    let count = shape.units();
    let mut turns = Vec::with_capacity(alloc, count as usize)?;
    for unit in 0..count {
        turns.push(Turn {
            number: places.number(shape, unit),
            unit,
        })?;
    }
    Ok(turns)
}

/// Sorts the turns by their numbers, of which no two are equal.
fn sort(turns: &mut [Turn])
    ensures sorted { IsNonDecreasingBy (λ (turn : Turn). turn.number) turns.new }
    ensures moved { IsPermutation turns.old turns.new }
{
    turns.sort_unstable_by_key(|turn| turn.number);
}

/// All units, with the numbers of their places, in the order of these.
fn turns(alloc: Global, shape: &Shape, places: &Places) -> Result<Vec<Turn>, NoMemory>
    requires { ArePlacesIn shape.now places.now }
    ensures { IfOk result (λ turns. AreTurns shape.now places.now turns.items) }
{
    let mut turns = listed(alloc, shape, places)?;
    sort(turns.as_mut_slice());
    Ok(turns)
}

/// The units of the turns.
fn units_of_turns(alloc: Global, turns: &[Turn]) -> Result<Vec<u32>, NoMemory>
    ensures { IfOk result (λ units. units.items ≡ map (λ (turn : Turn). turn.unit) turns.now) }
{
    let mut units = Vec::with_capacity(alloc, turns.len())?;
    for turn in turns {
        units.push(turn.unit)?;
    }
    Ok(units)
}

/// All units, in the order of their places. It takes n log n steps for n units, and 20 bytes for each.
pub fn units_in_order(alloc: Global, shape: &Shape, places: &Places) -> Result<Vec<u32>, NoMemory>
    requires { ArePlacesIn shape.now places.now }
    ensures { IfOk result (λ units. AreInOrder shape.now places.now units.items) }
{
    let turns = turns(alloc, shape, places)?;
    units_of_turns(alloc, turns.as_slice())
}
