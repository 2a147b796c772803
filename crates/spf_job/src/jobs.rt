//! The job of a plan.

ghost use Rattle.std.specs.Prelude.{◌≡◌, ◌↔◌, ℕ, All, IfOk, length, true};
ghost use Rattle.spf_perm.specs.Perm.{IsPerm};
ghost use Rattle.spf_touch.specs.Renaming.{renamed_units};
ghost use Rattle.spf_touch.specs.Repeated.{touches_at};
ghost use Rattle.spf_space.specs.Places.{place_of};
ghost use Rattle.spf_pack.specs.Packing.{packed_element, renaming_of};
ghost use Rattle.spf_store.specs.Behavior.{AreSourced, source_behavior};
ghost use Rattle.spf_store.specs.Shaped.{data_of};
ghost use Rattle.spf_core.specs.History.{is_before};
ghost use Rattle.spf_core.specs.Replay.{values_of};
ghost use Rattle.spf_tiles.specs.Before.{Before};
ghost use Rattle.spf_tiles.specs.Lists.{AreLists};
ghost use Rattle.spf_exec.specs.Running.{executor_behavior};
ghost use Rattle.spf_space.specs.InOrder.{units_in};
ghost use Rattle.spf_plan.specs.Planned.{IsPlanOf};
ghost use Rattle.spf_plan.specs.Taken.{BelongTogether};

use crate::moves::moved;
use spf_base::NoMemory;
use spf_core::Job;
use spf_exec::{Runner, bind, generate};
use spf_kernel::Kernel;
use spf_layers::Layers;
use spf_pack::{pack_cells, packing_is_renaming};
use spf_plan::Plan;
use spf_space::Shape;
use spf_store::Store;
use spf_term::Env;
use spf_tiles::{
    footprints, lists, plan_parts_are_sound, tile_order, tile_order_is_for_the_places,
};
use spf_touch::{Touches, renamed_units_do_the_same};
use std::alloc::Global;

/// The units of the kernel in composed terms, on cells that are packed as the plan says. It costs what `moved`, `generate` and
/// `bind` cost.
fn runner<'a>(
    alloc: Global,
    kernel: &'a Kernel,
    env: &'a Env,
    shape: &'a Shape,
    touches: &'a Touches,
    plan: &Plan,
) -> Result<Runner<'a>, NoMemory>
    requires sourced { AreSourced env.now kernel.now shape.now touches.now }
    requires plan { IsPlanOf touches.now shape.now plan.now }
    ensures { IfOk result (λ runner. (perms : All IsPerm plan.now.packs) →
        executor_behavior runner ≡ renamed_units (renaming_of plan.now.packs perms) (source_behavior env.now kernel.now shape.now.steps)) }
{
    let moved = moved(alloc, shape, plan)?;
    let program = generate(alloc, kernel, &moved)?;
    bind(alloc, program, kernel, env, shape, touches, moved)
}

/// The job of the plan: its units are those of the kernel on packed cells, in the plan's tiles. It costs the runner, the sort of
/// the units by their places, the order of the tiles and the sort of the touches of each tile, and is else linear in the cells,
/// with 8 bytes for each cell and for each touch of a tile.
pub fn job<'a>(
    alloc: Global,
    kernel: &'a Kernel,
    env: &'a Env,
    store: &Store,
    shape: &'a Shape,
    touches: &'a Touches,
    layers: &Layers,
    plan: &Plan,
) -> Result<Job<Runner<'a>>, NoMemory>
    requires sourced { AreSourced env.now kernel.now shape.now touches.now }
    requires parts { BelongTogether layers.now touches.now shape.now }
    requires plan { IsPlanOf touches.now shape.now plan.now }
    requires arrays { store.now.arrays ≡ data_of env.now kernel.now }
    ensures units { IfOk result (λ job. (perms : All IsPerm plan.now.packs) →
        executor_behavior job.units ≡ renamed_units (renaming_of plan.now.packs perms) (source_behavior env.now kernel.now shape.now.steps)) }
    ensures lists { IfOk result (λ job. AreLists (place_of shape.now.steps shape.now.loops plan.now.tiles plan.now.orders) (units_in shape.now) plan.now.count job.tiling.lists) }
    ensures order { IfOk result (λ job. (a b : ℕ) → (is_before job.tiling.order a b ≡ true) ↔ Before (touches_at touches.now) plan.now.tiles a b) }
    ensures count { IfOk result (λ job. length job.tiling.cells ≡ length store.now.cells) }
    ensures cells { IfOk result (λ job. (e : ℕ) → values_of job.tiling.cells (packed_element plan.now.packs e) ≡ values_of store.now.cells e) }
{
    packing_is_renaming();
    renamed_units_do_the_same();
    tile_order_is_for_the_places();
    plan_parts_are_sound();
    let _arrays = store.arrays.as_slice();
    let units = runner(alloc, kernel, env, shape, touches, plan)?;
    let cells = pack_cells(alloc, plan.packs(), store.cells.as_slice())?;
    let places = plan.places();
    let tiles = plan.tiles();
    let lists = lists(alloc, shape, places, tiles)?;
    let order = tile_order(alloc, layers, shape, places, tiles)?;
    let feet = footprints(alloc, &units, lists.as_slice())?;
    Ok(Job::make(units, lists, order, feet, cells))
}
