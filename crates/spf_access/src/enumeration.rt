//! The touch lists of all iterations of a step.

ghost use Rattle.std.specs.Prelude.{◌≡◌, ◌<◌, ◌^◌, ◌-◌, ◌+◌, [], ◌∷◌, IfOk, Some, drop, length, replicate, slice_get, pos, ◌+ℤ◌};
ghost use Rattle.spf_term.specs.Bounded.{AreWithin, IsWithin};
ghost use Rattle.spf_space.specs.Layout.{iterations};
ghost use Rattle.spf_space.specs.Units.{loops_units};
ghost use Rattle.spf_store.specs.Accepted.{IsAccepted};
ghost use Rattle.spf_kernel.specs.Bounded.{IsBoundedTree};
ghost use Rattle.spf_store.specs.Shaped.{IsShapeOf, data_of, loops_of};
ghost use Rattle.spf_store.specs.Source.{iteration_of};
ghost use Rattle.spf_access.specs.Answer.{IsAccessAnswer};
ghost use Rattle.spf_access.specs.Units.{AmongUnits, Comes, IsUnitWalked, fault_of};

use crate::access_fault::AccessFault;
use crate::progress::Progress;
use crate::stop::Stop;
use crate::walks::Walk;
use spf_base::NoMemory;
use spf_kernel::Kernel;
use spf_space::{LoopShape, Shape, Unit};
use spf_store::{bounded_items_are_small, walk_iteration};
use spf_term::Env;
use spf_touch::{TouchLists, Touches};
use std::alloc::Global;

/// The fault of a unit in which the walk stopped.
fn fault_of(stop: Stop, loop_no: u32, iteration: i64) -> AccessFault
    ensures { result ≡ fault_of loop_no iteration stop }
{
    match stop {
        Stop::Range { site, value } => AccessFault::Range {
            loop_no,
            iteration,
            site,
            value,
        },
        Stop::Visits { count } => AccessFault::Visits { count },
        Stop::Memory => AccessFault::Memory,
    }
}

/// The iteration at a position of a loop.
fn iteration_at(lower: i64, position: u32) -> i64
    requires { IsWithin (2 ^ 22) (lower +ℤ pos position) }
    ensures { result ≡ lower +ℤ pos position }
{
    lower + i64::from(position)
}

/// Goes through a unit, and finishes its touch list.
fn walk_unit(
    walk: &Walk<'_>,
    progress: &mut Progress<'_>,
    unit: &Unit,
    iteration: i64,
) -> Result<(), AccessFault>
    requires there { unit.now.loop_no < length walk.now.tree.now.loops }
    requires iteration { iteration ≡ iteration_of walk.now.env.now walk.now.tree.now unit.now }
    requires within { AreWithin walk.now.env.now (iteration ∷ []) }
    requires bounded { IsBoundedTree walk.now.tree.now }
    requires arrays { progress.old.arrays ≡ data_of walk.now.env.now walk.now.tree.now }
    requires fresh { progress.old.current ≡ [] }
    requires few { length progress.old.closed < 2 ^ 32 - 1 }
    ensures { IsUnitWalked walk.now.env.now walk.now.tree.now unit.now progress.old result progress.new }
{
    bounded_items_are_small();
    let each = &walk.tree.loops.as_slice()[unit.loop_no as usize];
    match walk_iteration(walk, progress, &[iteration], each.items.as_slice()) {
        Ok(()) => Ok(progress.close()?),
        Err(stop) => Err(fault_of(stop, unit.loop_no, iteration)),
    }
}

/// Goes through the iterations of a loop.
fn walk_loop(
    walk: &Walk<'_>,
    progress: &mut Progress<'_>,
    loop_no: u32,
    shape: &LoopShape,
) -> Result<(), AccessFault>
    requires there { slice_get (loops_of walk.now.env.now walk.now.tree.now) loop_no ≡ Some shape.now }
    requires accepted { IsAccepted walk.now.env.now walk.now.tree.now }
    requires bounded { IsBoundedTree walk.now.tree.now }
    requires few { iterations (loops_of walk.now.env.now walk.now.tree.now) < 2 ^ 32 }
    requires among { AmongUnits walk.now.env.now walk.now.tree.now progress.old (loops_units 0 loop_no (drop loop_no (loops_of walk.now.env.now walk.now.tree.now))) }
    ensures { Comes walk.now.env.now walk.now.tree.now progress.old result progress.new (loops_units 0 (loop_no + 1) (drop (loop_no + 1) (loops_of walk.now.env.now walk.now.tree.now))) }
{
    for position in 0..shape.extent {
        let unit = Unit {
            step: 0,
            loop_no,
            position,
        };
        walk_unit(walk, progress, &unit, iteration_at(shape.lower, position))?;
    }
    Ok(())
}

/// Goes through the loops.
fn walk_loops(
    walk: &Walk<'_>,
    progress: &mut Progress<'_>,
    loops: &[LoopShape],
) -> Result<(), AccessFault>
    requires loops { loops.now ≡ loops_of walk.now.env.now walk.now.tree.now }
    requires accepted { IsAccepted walk.now.env.now walk.now.tree.now }
    requires bounded { IsBoundedTree walk.now.tree.now }
    requires few { iterations (loops_of walk.now.env.now walk.now.tree.now) < 2 ^ 32 }
    requires numbered { length loops.now < 2 ^ 32 }
    requires among { AmongUnits walk.now.env.now walk.now.tree.now progress.old (loops_units 0 0 (loops_of walk.now.env.now walk.now.tree.now)) }
    ensures { Comes walk.now.env.now walk.now.tree.now progress.old result progress.new [] }
{
    for (loop_no, shape) in loops.iter().enumerate() {
        walk_loop(walk, progress, loop_no as u32, shape)?;
    }
    Ok(())
}

/// So many empty lists.
fn empty_lists(alloc: Global, count: u32) -> Result<Touches, NoMemory>
    ensures { IfOk result (λ touches. touches ≡ replicate count []) }
{
    let mut lists = TouchLists::new(alloc, 0)?;
    for _ in 0..count {
        lists.close()?;
    }
    Ok(lists.finish())
}

/// What the iterations of one step touch, or the first fault on the way through them. Linear in the events up to there, and in
/// the cells.
pub fn accesses(
    alloc: Global,
    kernel: &Kernel,
    env: &Env,
    shape: &Shape,
) -> Result<Touches, AccessFault>
    requires accepted { IsAccepted env.now kernel.now }
    requires shape { IsShapeOf env.now kernel.now shape.now }
    ensures { IsAccessAnswer env.now kernel.now shape.now.steps result }
{
    if shape.steps == 0 {
        return Ok(empty_lists(alloc, shape.per_step())?);
    }
    let mut progress = Progress::new(alloc, shape)?;
    let walk = Walk {
        env,
        tree: kernel.tree(),
    };
    walk_loops(&walk, &mut progress, shape.loops.as_slice())?;
    Ok(progress.finish())
}
