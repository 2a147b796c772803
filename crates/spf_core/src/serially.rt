//! The tiles of a job one after another.

ghost use Rattle.std.specs.Prelude.{◌≡◌, ℕ, length};
ghost use Rattle.std.specs.List.{range_with_len};
ghost use Rattle.spf_touch.specs.Frame.{after_units};
ghost use Rattle.spf_core.specs.Replay.{values_of};
ghost use Rattle.spf_core.specs.Tiling.{units_of};

use crate::job::Job;
use crate::lent::Lent;
use spf_touch::Units;

/// Runs the tiles in ascending order on the cells. It takes no memory, and costs what the units cost.
pub fn serial<U: Units>(job: &Job<U>, cells: &mut [i64])
    requires { length cells.old ≡ length job.now.tiling.cells }
    ensures { (e : ℕ) → values_of cells.new e
        ≡ after_units (U.behavior job.now.units) (range_with_len 0 (U.behavior job.now.units).count) (values_of cells.old) e }
{
    job.sound();
    run_tiles(job, cells);
}

fn run_tiles<U: Units>(job: &Job<U>, cells: &mut [i64])
    requires { length cells.old ≡ length job.now.tiling.cells }
    ensures { values_of cells.new
        ≡ after_units (U.behavior job.now.units) (units_of job.now.tiling (range_with_len 0 (length job.now.tiling.lists))) (values_of cells.old) }
{
    let mut lent = Lent { cells };
    for tile in 0..job.tiles() {
        job.run_tile(tile, &mut lent);
    }
}
