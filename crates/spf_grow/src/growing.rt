//! Growing numbers from a seed.

ghost use Rattle.std.specs.Prelude.{◌≡◌, ◌+◌, ◌<◌, ◌≤◌, ℕ, All, MatchResult, None, Some, length, slice_get, slice_index};
ghost use Rattle.spf_space.specs.Layout.{cells_in, iterations};
ghost use Rattle.spf_space.specs.Units.{units_of};
ghost use Rattle.spf_space.specs.declared.shape.LoopShape.{LoopShape};
ghost use Rattle.spf_touch.specs.Frame.{IsTouched};
ghost use Rattle.spf_touch.specs.Repeated.{touches_at};
ghost use Rattle.spf_layers.specs.Legality.{IsFirst};
ghost use Rattle.spf_grow.specs.Bounds.{AreEmpty, ArePassed};
ghost use Rattle.spf_grow.specs.Growth.{Falls, HasSeed, IsGrowFault, IsGrown, IsGrowth, first_unit};

use crate::extremes::{Extremes, forget, no_numbers};
use crate::grow_fault::GrowFault;
use crate::passes::{give_greatest, give_least, note_depths};
use crate::seeds::{first_fall, seeded};
use crate::units::{cells_of, first_of};
use spf_space::Shape;
use spf_touch::Touches;
use std::alloc::Global;

/// The numbers that grow from a seed, one for each unit in textual order: `seed` has the part of each position of the seed loop
/// at the seed step. Behind the seed units they are the least, and before them the greatest below `parts`, that fall along no
/// two conflicting units: 0 and `parts - 1` where nothing forces more or less. Where the seed falls along two of the seed units
/// themselves, there are none.
///
/// Linear in the touches of all steps and the cells; a seed that falls is read once more, backwards. It takes 4 bytes for each
/// unit, and 12 for each cell while it works.
pub fn grow(
    alloc: Global,
    touches: &Touches,
    shape: &Shape,
    seed: &[u32],
    seed_step: u32,
    seed_loop: u32,
    parts: u32,
) -> Result<Vec<u32>, GrowFault>
    requires lists { length touches.now ≡ iterations shape.now.loops }
    requires inside { (u e : ℕ) → IsTouched (touches_at touches.now u) e → e < cells_in shape.now.arrays }
    requires step { seed_step < shape.now.steps }
    requires seed_loop { seed_loop < length shape.now.loops }
    requires some { 1 ≤ parts }
    requires few { parts ≤ 1024 }
    requires positions { (loop : LoopShape) → slice_get shape.now.loops seed_loop ≡ Some loop → length seed.now ≡ loop.extent }
    requires below { All (λ (part : ℕ). part < parts) seed.now }
    ensures { MatchResult result
        (λ numbers. IsGrown (touches_at touches.now) (length (units_of shape.now.steps shape.now.loops)) (first_unit shape.now.loops seed_step seed_loop) seed.now parts numbers.items)
        (λ fault. IsGrowFault (touches_at touches.now) (first_unit shape.now.loops seed_step seed_loop) seed.now fault) }
{
    let first = first_of(shape, seed_step, seed_loop);
    let mut numbers = seeded(alloc, shape.units(), first, seed)?;
    let mut bounds = no_numbers(alloc, cells_of(shape.arrays.as_slice()))?;
    let fall = number_all(
        touches,
        first,
        seed,
        parts - 1,
        numbers.as_mut_slice(),
        bounds.as_mut_slice(),
    );
    match fall {
        Some((p, q)) => Err(GrowFault::Reversed { p, q }),
        None => Ok(numbers),
    }
}

/// Gives all units the numbers that grow from the seed, which the seed units have. If it falls, the first two seed units along
/// which it does so are answered.
fn number_all(
    touches: &Touches,
    first: u32,
    seed: &[u32],
    last: u32,
    numbers: &mut [u32],
    bounds: &mut [Extremes],
) -> Option<(u32, u32)>
    requires units { ArePassed touches.now (length numbers.old) (length bounds.old) }
    requires order { first + length seed.now ≤ length numbers.old }
    requires seeded { HasSeed first seed.now (slice_index numbers.old) }
    requires below { All (λ (part : ℕ). part ≤ last) seed.now }
    requires empty { AreEmpty bounds.old }
    ensures first { IsFirst (Falls (touches_at touches.now) first seed.now) result }
    ensures grown { result ≡ None → IsGrowth (touches_at touches.now) (length numbers.old) first seed.now (last + 1) (slice_index numbers.new) }
{
    match first_fall(touches, first, seed, bounds) {
        Some(pair) => Some(pair),
        None => {
            give_least(touches, first + seed.len() as u32, numbers, bounds);
            forget(bounds);
            note_depths(touches, first, last, numbers, bounds);
            give_greatest(touches, first, last, numbers, bounds);
            None
        }
    }
}
