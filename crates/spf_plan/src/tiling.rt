//! The tiles of a tiling.

ghost use Rattle.std.specs.Prelude.{◌≡◌, ◌+◌, ◌<◌, ◌≤◌, ◌^◌, ℕ, All, IfOk, MatchResult, Some, length, slice_get, take};
ghost use Rattle.spf_perm.specs.Perm.{IsPerm};
ghost use Rattle.spf_touch.specs.Frame.{IsTouched};
ghost use Rattle.spf_touch.specs.Repeated.{touches_at};
ghost use Rattle.spf_space.specs.Layout.{cells_in, iterations};
ghost use Rattle.spf_space.specs.declared.shape.LoopShape.{LoopShape};
ghost use Rattle.spf_script.specs.Resolved.{IsSeedFor, IsStepFor};
ghost use Rattle.spf_script.specs.declared.resolved.Step.TheVariants.{Tile};
ghost use Rattle.spf_plan.specs.Planned.{by_iteration};
ghost use Rattle.spf_plan.specs.Seeded.{IsSeedOf};
ghost use Rattle.spf_plan.specs.Taken.{AreGrown, IsTileFault};

use crate::plan_fault::PlanFault;
use crate::view::view;
use spf_base::NoMemory;
use spf_grow::{GrowFault, grow};
use spf_perm::Perm;
use spf_script::Seed;
use spf_seed::{block, spread};
use spf_space::Shape;
use spf_touch::Touches;
use std::alloc::Global;

/// The loop at a step whose iterations a seed gives so many parts.
#[derive(Clone, Copy)]
pub(crate) struct Tiling {
    pub(crate) of: u32,
    pub(crate) step: u32,
    pub(crate) seed: Seed,
    pub(crate) parts: u32,
}

/// The part that the seed gives each position of the loop. Costs what the seed costs, and for `Spread` its view.
fn seed_parts(
    alloc: Global,
    touches: &Touches,
    shape: &Shape,
    order: &Perm,
    tiling: Tiling,
) -> Result<Vec<u32>, NoMemory>
    requires perm { IsPerm order.now }
    requires there { tiling.of < length shape.now.loops }
    requires positions { iterations (take tiling.of shape.now.loops) + length order.now ≤ length touches.now }
    requires few { length touches.now < 2 ^ 32 }
    requires some { 1 ≤ tiling.parts }
    requires seed { IsSeedFor 0 tiling.seed }
    ensures seeded { IfOk result (λ list. IsSeedOf touches.now shape.now tiling.of order.now tiling.seed tiling.parts list.items) }
    ensures below { IfOk result (λ list. All (λ part. part < tiling.parts) list.items) }
{
    match tiling.seed {
        Seed::Block => block(alloc, order.len(), tiling.parts),
        Seed::Spread => {
            let view = view(alloc, touches, shape, tiling.of, order, tiling.parts)?;
            spread(alloc, &view)
        }
        Seed::Plug(_) => unreachable!(),
    }
}

/// The part of each source position, from those of the positions of the order. Linear in the positions.
fn by_iteration(alloc: Global, order: &Perm, list: &[u32]) -> Result<Vec<u32>, NoMemory>
    requires { length list.now ≡ length order.now }
    ensures { IfOk result (λ parts. parts.items ≡ by_iteration order.now list.now) }
{
    let mut parts = Vec::with_capacity(alloc, list.len())?;
    for iteration in 0..order.len() {
        parts.push(list[order.at(iteration) as usize])?;
    }
    Ok(parts)
}

/// The tiles that grow from the seed, or the refusal of the step of this number where the seed falls. Costs what the seed and
/// `grow` cost.
pub(crate) fn grown_tiles(
    alloc: Global,
    touches: &Touches,
    shape: &Shape,
    number: u32,
    order: &Perm,
    tiling: Tiling,
) -> Result<Vec<u32>, PlanFault>
    requires perm { IsPerm order.now }
    requires lists { length touches.now ≡ iterations shape.now.loops }
    requires inside { (u e : ℕ) → IsTouched (touches_at touches.now u) e → e < cells_in shape.now.arrays }
    requires step { IsStepFor shape.now 0 (Tile tiling.of tiling.step tiling.seed tiling.parts) }
    requires positions { (loop : LoopShape) → slice_get shape.now.loops tiling.of ≡ Some loop → length order.now ≡ loop.extent }
    ensures { MatchResult result
        (λ tiles. AreGrown touches.now shape.now tiling.of tiling.step tiling.seed tiling.parts order.now tiles.items)
        (IsTileFault touches.now shape.now tiling.of tiling.step tiling.seed tiling.parts order.now number) }
{
    let list = seed_parts(alloc, touches, shape, order, tiling)?;
    let seed = by_iteration(alloc, order, list.as_slice())?;
    match grow(
        alloc,
        touches,
        shape,
        seed.as_slice(),
        tiling.step,
        tiling.of,
        tiling.parts,
    ) {
        Ok(tiles) => Ok(tiles),
        Err(GrowFault::Reversed { p, q }) => Err(PlanFault::Illegal {
            step: number,
            p: shape.split(p),
            q: shape.split(q),
        }),
        Err(GrowFault::Memory) => Err(PlanFault::Memory),
    }
}
