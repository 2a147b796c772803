//! The executor's units, as units that may be run in any legal order.

ghost use Rattle.std.specs.Prelude.{◌≡◌, ◌<◌, ◌^◌, ◌∷◌, [], All, IfOk, length, map, pos};
ghost use Rattle.std.proofs.Props.{props};
ghost use Rattle.spf_perm.specs.Perm.{IsPerm};
ghost use Rattle.spf_touch.specs.Renaming.{renamed_units};
ghost use Rattle.spf_space.specs.declared.shape.ArrayShape.{ArrayShape};
ghost use Rattle.spf_pack.specs.Packing.{renaming_of};
ghost use Rattle.spf_store.specs.Behavior.{AreSourced, source_behavior};
ghost use Rattle.spf_store.specs.Done.{IsDone};
ghost use Rattle.spf_store.specs.Effect.{effect};
ghost use Rattle.spf_store.specs.Needs.{Allows};
ghost use Rattle.spf_store.specs.Small.{IsSmallItem};
ghost use Rattle.spf_store.specs.Trace.{items_trace};
ghost use Rattle.spf_exec.specs.Generated.{program_of};
ghost use Rattle.spf_exec.specs.Moves.{AreMovesOf, extents, lengths, packings_of};
ghost use Rattle.spf_exec.specs.Running.{DoesExecutor, HasFewSites, executor_behavior};

use crate::environment::executor_env;
use crate::moves::{moved_to, packed_element};
use crate::program::{Moved, Program};
use crate::renamed::{executor_items_are_small, executor_units_are_renamed};
use crate::sites::have_few_sites;
use crate::units::executor_runs_renamed_units;
use spf_base::NoMemory;
use spf_kernel::Kernel;
use spf_kernel::tree::Item;
use spf_pack::packing_is_renaming;
use spf_space::{ArrayShape, Shape};
use spf_store::run_iteration;
use spf_term::Env;
use spf_touch::{Cells, Touch, Touches, Units};
use std::alloc::Global;
use std::marker::Model;

/// The units of all steps of a kernel, in textual order, each run at its new position and on packed cells: seen as the units
/// of the source and the packings of the arrays. A unit is linear in its events, in the loops, and in what the items of its
/// loop are written with; one of its touches is linear in the arrays. Neither takes memory.
///
/// A runner may go to another thread, and others may read it: `runner_send` and `runner_sync` of proofs/Threads.antt.
#[derive(Drop)]
pub struct Runner<'a> {
    kernel: &'a Kernel,
    source: &'a Env,
    shape: &'a Shape,
    touches: &'a Touches,
    program: Program,
    moved: Moved,
    env: Env,
    starts: Vec<u32>,
    ghost perms: { All IsPerm (packings_of moved.arrays shape.now.arrays) } by { Prim.hlevel props },
}

impl<'a> Model for Runner<'a> {
    ghost use Rattle.std.specs.Coded.{codes};
    ghost use Rattle.spf_term.specs.contracts.term.Term as term;
    ghost use Rattle.spf_kernel.specs.contracts.tree.Value as value;
    ghost use Rattle.spf_exec.specs.Moves.{packings_of};
    ghost use Rattle.spf_exec.specs.Running.{Executed, IsRunner};

    ghost Value = { Executed };

    ghost coded = { Prim.hlevel (codes, term.the_row.coded, value.the_row.coded) };

    ghost view = { λ runner. record {
      source = record { env = runner.source.now; tree = runner.kernel.now; steps = runner.shape.now.steps };
      packings = packings_of runner.moved.arrays runner.shape.now.arrays;
      perms = runner.perms;
    } };

    ghost invariant = { λ runner. IsRunner runner.source.now runner.env runner.kernel.now runner.shape.now runner.touches.now runner.moved runner.program runner.starts.items };
}

/// The first element of each array. 4 bytes for each.
fn starts_of(alloc: Global, arrays: &[ArrayShape]) -> Result<Vec<u32>, NoMemory>
    ensures { IfOk result (λ starts. starts.items ≡ map (λ (array : ArrayShape). array.start) arrays.now) }
{
    let mut starts = Vec::with_capacity(alloc, arrays.len())?;
    for array in arrays {
        starts.push(array.start)?;
    }
    Ok(starts)
}

/// The executor's units for a program, with the numbers, the shape and the touch lists of its kernel, and what it was made to
/// move. Linear in the program, and, at 8 bytes for each, in the positions of loops that are moved, in the places of arrays
/// that are packed, and in the entries of index arrays, of which it makes a copy. A body with 2^32 sites, which takes more
/// than 100 GB, is out of memory here too.
pub fn bind<'a>(
    alloc: Global,
    program: Program,
    kernel: &'a Kernel,
    env: &'a Env,
    shape: &'a Shape,
    touches: &'a Touches,
    moved: Moved,
) -> Result<Runner<'a>, NoMemory>
    requires program { program ≡ program_of kernel.now moved }
    requires sourced { AreSourced env.now kernel.now shape.now touches.now }
    requires loops { AreMovesOf (extents shape.now.loops) moved.loops }
    requires arrays { AreMovesOf (lengths shape.now.arrays) moved.arrays }
    ensures behavior { IfOk result (λ runner. (perms : All IsPerm (packings_of moved.arrays shape.now.arrays)) →
        executor_behavior runner ≡ renamed_units (renaming_of (packings_of moved.arrays shape.now.arrays) perms) (source_behavior env.now kernel.now shape.now.steps)) }
    ensures effect { IfOk result (λ runner. DoesExecutor env.now kernel.now moved shape.now.steps (executor_behavior runner)) }
{
    packing_is_renaming();
    executor_runs_renamed_units();
    let _tree = kernel.tree();
    if !have_few_sites(program.loops.as_slice()) {
        return Err(NoMemory);
    }
    let starts = starts_of(alloc, shape.arrays.as_slice())?;
    let executor = executor_env(alloc, env, shape.loops.as_slice(), &moved)?;
    Ok(Runner {
        kernel,
        source: env,
        shape,
        touches,
        program,
        moved,
        env: executor,
        starts,
    })
}

/// The loop's variable is the position.
fn variables_at(position: u32) -> [i64; 1]
    ensures { result ≡ pos position ∷ [] }
{
    [i64::from(position)]
}

/// Runs the items of a loop at a position.
fn run_at<C: Cells>(env: &Env, starts: &[u32], items: &[Item], position: u32, cells: &mut C)
    requires small { All (IsSmallItem env.now (pos position ∷ [])) items.now }
    requires few { HasFewSites items.now }
    requires allows { All (Allows starts.now (C.own cells.old)) (items_trace env.now (pos position ∷ []) 1 items.now) }
    ensures { IsDone C.own C.value C.kept (effect env.now starts.now (items_trace env.now (pos position ∷ []) 1 items.now)) cells.old cells.new }
{
    run_iteration(env, starts, items, &variables_at(position), cells);
}

impl<'a> Runner<'a> {
    /// The touches of the source's unit.
    fn source_touches(&self, unit: u32) -> &[Touch]
        requires { unit < (executor_behavior self.now).count }
        ensures touches { result.now ≡ (source_behavior self.now.source.env self.now.source.tree self.now.source.steps).touches unit }
        ensures short { length result.now < 2 ^ 32 }
    {
        self.touches.of(unit % self.touches.locals())
    }
}

impl<'a> Units for Runner<'a> {
    ghost use Rattle.spf_exec.specs.Running.{executor_behavior, executor_law};

    ghost behavior = { executor_behavior };

    ghost framed = { executor_law };

    fn count(&self) -> u32 {
        self.shape.units()
    }

    fn touch_count(&self, unit: u32) -> u32 {
        self.source_touches(unit).len() as u32
    }

    fn touch(&self, unit: u32, nth: u32) -> Touch {
        let touch = self.source_touches(unit)[nth as usize];
        let element = packed_element(
            self.shape.arrays.as_slice(),
            self.moved.arrays.as_slice(),
            touch.element,
        );
        Touch {
            element,
            class: touch.class,
        }
    }

    fn run<C: Cells>(&self, unit: u32, cells: &mut C) {
        executor_runs_renamed_units();
        executor_units_are_renamed();
        executor_items_are_small();
        let unit = self.shape.split(unit);
        let number = unit.loop_no as usize;
        let position = moved_to(self.moved.loops.as_slice(), number, unit.position);
        let body = &self.program.loops.as_slice()[number];
        run_at(
            &self.env,
            self.starts.as_slice(),
            body.items.as_slice(),
            position,
            cells,
        );
    }
}
