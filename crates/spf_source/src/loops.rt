//! The loops of a kernel, run in textual order.

ghost use Rattle.std.specs.Prelude.{◌≡◌, ◌<◌, ◌^◌, ◌+ℤ◌, ◌∷◌, [], pos, length, slice_get, Some};
ghost use Rattle.spf_term.specs.Bounded.{IsWithin};
ghost use Rattle.spf_space.specs.Units.{loops_units, units_of};
ghost use Rattle.spf_store.specs.FirstFault.{AreInRange, IsInRange};
ghost use Rattle.spf_store.specs.Accesses.{accesses_of};
ghost use Rattle.spf_store.specs.Shaped.{loops_of, starts_of};
ghost use Rattle.spf_store.specs.Source.{unit_effect, unit_trace, units_effect};
ghost use Rattle.spf_store.specs.Done.{IsDone};
ghost use Rattle.spf_store.specs.Needs.{OwnsAll};
ghost use Rattle.spf_source.specs.Ready.{IsReady, OwnsCells, extent_of, loop_units, lower_of};

use crate::given::Given;
use spf_kernel::tree::{Loop, Tree};
use spf_space::Unit;
use spf_store::{
    accepted_numbers_are_small, bounded_items_are_small, extent, outer_value, run_iteration,
};
use spf_touch::Cells;

fn loop_at(tree: &Tree, loop_no: u32) -> &Loop
    requires { loop_no < length tree.now.loops }
    ensures { slice_get tree.now.loops loop_no ≡ Some result.now }
{
    &tree.loops.as_slice()[loop_no as usize]
}

/// The iteration at a position of a loop with this lower bound.
fn iteration_at(lower: i64, position: u32) -> [i64; 1]
    requires { IsWithin (2 ^ 22) lower }
    ensures { result ≡ (lower +ℤ pos position) ∷ [] }
{
    [lower + i64::from(position)]
}

/// Runs a unit, of whose loop this is the lower bound.
pub(crate) fn run_at<C: Cells>(given: &Given, tree: &Tree, unit: &Unit, lower: i64, cells: &mut C)
    requires ready { IsReady given.now.env.now tree.now given.now.starts.now }
    requires own { OwnsAll (C.own cells.old) (accesses_of (starts_of given.now.env.now tree.now) (unit_trace given.now.env.now tree.now unit.now)) }
    requires range { IsInRange given.now.env.now tree.now unit.now }
    requires there { unit.now.position < extent_of given.now.env.now tree.now (slice_get tree.now.loops unit.now.loop_no) }
    requires lower { lower ≡ lower_of given.now.env.now tree.now (slice_get tree.now.loops unit.now.loop_no) }
    ensures { IsDone C.own C.value C.kept (unit_effect given.now.env.now tree.now unit.now) cells.old cells.new }
{
    accepted_numbers_are_small();
    bounded_items_are_small();
    let each = loop_at(tree, unit.loop_no);
    let iteration = iteration_at(lower, unit.position);
    run_iteration(
        given.env,
        given.starts,
        each.items.as_slice(),
        &iteration,
        cells,
    );
}

/// Runs the iterations of a loop.
fn run_loop<C: Cells>(given: &Given, tree: &Tree, loop_no: u32, cells: &mut C)
    requires ready { IsReady given.now.env.now tree.now given.now.starts.now }
    requires own { OwnsCells given.now.env.now tree.now (C.own cells.old) }
    requires range { AreInRange given.now.env.now tree.now }
    requires there { loop_no < length tree.now.loops }
    ensures { IsDone C.own C.value C.kept (units_effect given.now.env.now tree.now (loop_units given.now.env.now tree.now loop_no)) cells.old cells.new }
{
    accepted_numbers_are_small();
    let each = loop_at(tree, loop_no);
    let low = outer_value(given.env, &each.low);
    let high = outer_value(given.env, &each.high);
    for position in 0..extent(&(low..high)) {
        // What a unit does doesn't depend on its step.
        let unit = Unit {
            step: 0,
            loop_no,
            position,
        };
        run_at(given, tree, &unit, low, cells);
    }
}

/// Runs the loops once, as they stand.
fn run_step<C: Cells>(given: &Given, tree: &Tree, cells: &mut C)
    requires ready { IsReady given.now.env.now tree.now given.now.starts.now }
    requires own { OwnsCells given.now.env.now tree.now (C.own cells.old) }
    requires range { AreInRange given.now.env.now tree.now }
    ensures { IsDone C.own C.value C.kept (units_effect given.now.env.now tree.now (loops_units 0 0 (loops_of given.now.env.now tree.now))) cells.old cells.new }
{
    for loop_no in 0..tree.loops.len() as u32 {
        run_loop(given, tree, loop_no, cells);
    }
}

/// Runs the loops so many times.
pub(crate) fn run_steps<C: Cells>(given: &Given, tree: &Tree, steps: u32, cells: &mut C)
    requires ready { IsReady given.now.env.now tree.now given.now.starts.now }
    requires own { OwnsCells given.now.env.now tree.now (C.own cells.old) }
    requires range { AreInRange given.now.env.now tree.now }
    ensures { IsDone C.own C.value C.kept (units_effect given.now.env.now tree.now (units_of steps (loops_of given.now.env.now tree.now))) cells.old cells.new }
{
    for _step in 0..steps {
        run_step(given, tree, cells);
    }
}
