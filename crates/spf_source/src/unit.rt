//! One unit of a kernel.

ghost use Rattle.std.specs.Prelude.{◌≡◌, ℕ, ◌<◌, Some, length, map, slice_get};
ghost use Rattle.spf_space.specs.Units.{IsUnitOf};
ghost use Rattle.spf_space.specs.declared.shape.LoopShape.{LoopShape};
ghost use Rattle.spf_store.specs.Accepted.{IsAccepted};
ghost use Rattle.spf_store.specs.FirstFault.{IsInRange};
ghost use Rattle.spf_store.specs.Accesses.{accesses_of};
ghost use Rattle.spf_store.specs.Shaped.{IsShapeOf, starts_of};
ghost use Rattle.spf_store.specs.Source.{unit_effect, unit_trace};
ghost use Rattle.spf_store.specs.Needs.{OwnsAll};

use crate::given::Given;
use crate::loops::run_at;
use crate::source::starts_of;
use spf_kernel::Kernel;
use spf_space::{LoopShape, Shape, Unit};
use spf_term::Env;
use spf_touch::Cells;

fn lower_at(loops: &[LoopShape], loop_no: u32) -> i64
    requires { loop_no < length loops.now }
    ensures { slice_get (map (λ (each : LoopShape). each.lower) loops.now) loop_no ≡ Some result }
{
    loops[loop_no as usize].lower
}

/// Runs a unit: an iteration of one loop, on any cells that own what it accesses. Linear in its events and in the arrays, of
/// which there are at most 64; recurses as deep as index expressions and values nest.
pub fn run_unit<C: Cells>(kernel: &Kernel, env: &Env, shape: &Shape, unit: &Unit, cells: &mut C)
    requires accepted { IsAccepted env.now kernel.now }
    requires shape { IsShapeOf env.now kernel.now shape.now }
    requires unit { IsUnitOf shape.now.steps shape.now.loops unit.now }
    requires range { IsInRange env.now kernel.now unit.now }
    requires own { OwnsAll (C.own cells.old) (accesses_of (starts_of env.now kernel.now) (unit_trace env.now kernel.now unit.now)) }
    ensures own { (e : ℕ) → C.own cells.new e ≡ C.own cells.old e }
    ensures kept { C.kept cells.old cells.new }
    ensures effect { (e : ℕ) → C.value cells.new e ≡ unit_effect env.now kernel.now unit.now (C.value cells.old) e }
{
    let tree = kernel.tree();
    let starts = starts_of(shape.arrays.as_slice());
    let given = Given {
        env,
        starts: &starts[..shape.arrays.len()],
    };
    let lower = lower_at(shape.loops.as_slice(), unit.loop_no);
    run_at(&given, tree, unit, lower, cells);
}
