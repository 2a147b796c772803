//! A plan, run on one thread.

ghost use Rattle.std.specs.Prelude.{◌≡◌, ℕ, IfOk, OnErr, OnOk, length};
ghost use Rattle.std.specs.List.{range_with_len};
ghost use Rattle.spf_touch.specs.Frame.{after_units};
ghost use Rattle.spf_pack.specs.Packing.{cells_of, packed_element};
ghost use Rattle.spf_store.specs.Behavior.{AreSourced};
ghost use Rattle.spf_store.specs.Shaped.{data_of};
ghost use Rattle.spf_store.specs.Source.{source_result};
ghost use Rattle.spf_core.specs.Replay.{values_of};
ghost use Rattle.spf_plan.specs.Planned.{IsPlanOf};
ghost use Rattle.spf_plan.specs.Taken.{BelongTogether};

use crate::jobs::job;
use spf_base::NoMemory;
use spf_core::{Job, serial};
use spf_kernel::Kernel;
use spf_layers::Layers;
use spf_pack::{packing_is_renaming, unpack};
use spf_perm::Perm;
use spf_plan::Plan;
use spf_source::ascending_units_are_the_source;
use spf_space::Shape;
use spf_store::Store;
use spf_term::Env;
use spf_touch::{Touches, Units, renamed_units_do_the_same};
use std::alloc::Global;

/// Fetches the cells of the store from where the packings took them. Linear in the cells.
fn fetch(packings: &[Perm], cells: &[i64], store: &mut Store)
    requires cells { length cells.now ≡ cells_of packings.now }
    requires store { length store.old.cells ≡ cells_of packings.now }
    ensures arrays { store.new.arrays ≡ store.old.arrays }
    ensures count { length store.new.cells ≡ length store.old.cells }
    ensures cells { (e : ℕ) → values_of store.new.cells e ≡ values_of cells.now (packed_element packings.now e) }
{
    unpack(packings, cells, store.cells.as_mut_slice());
}

/// The job's cells after its tiles were run on them, one after another. It costs what the units cost, with 8 bytes for each cell.
fn ran_cells<U: Units>(alloc: Global, job: &Job<U>) -> Result<Vec<i64>, NoMemory>
    ensures count { IfOk result (λ cells. length cells.items ≡ length job.now.tiling.cells) }
    ensures cells { IfOk result (λ cells. (e : ℕ) → values_of cells.items e
        ≡ after_units (U.behavior job.now.units) (range_with_len 0 (U.behavior job.now.units).count) (values_of job.now.tiling.cells) e) }
{
    let mut cells = Vec::from_slice(alloc, job.cells())?;
    serial(job, cells.as_mut_slice());
    Ok(cells)
}

/// Runs the tiles of the plan's job one after another on packed cells, and unpacks them, which leaves the source result. It costs
/// what `job` costs and what the units cost, with 8 bytes more for each cell. Without memory the store is as before.
pub fn run_tiles(
    alloc: Global,
    kernel: &Kernel,
    env: &Env,
    shape: &Shape,
    touches: &Touches,
    layers: &Layers,
    plan: &Plan,
    store: &mut Store,
) -> Result<(), NoMemory>
    requires sourced { AreSourced env.now kernel.now shape.now touches.now }
    requires parts { BelongTogether layers.now touches.now shape.now }
    requires plan { IsPlanOf touches.now shape.now plan.now }
    requires arrays { store.old.arrays ≡ data_of env.now kernel.now }
    ensures arrays { OnOk result (store.new.arrays ≡ store.old.arrays) }
    ensures count { OnOk result (length store.new.cells ≡ length store.old.cells) }
    ensures cells { OnOk result ((e : ℕ) → values_of store.new.cells e ≡ source_result env.now kernel.now shape.now.steps (values_of store.old.cells) e) }
    ensures unchanged { OnErr result (store.new ≡ store.old) }
{
    packing_is_renaming();
    renamed_units_do_the_same();
    ascending_units_are_the_source();
    let _arrays = store.arrays.as_slice();
    let job = job(alloc, kernel, env, store, shape, touches, layers, plan)?;
    let cells = ran_cells(alloc, &job)?;
    fetch(plan.packs(), cells.as_slice(), store);
    Ok(())
}
