//! How far the walk through a step has come.

ghost use Rattle.std.specs.Prelude.{◌≡◌, ◌+◌, ◌-◌, ◌*◌, ◌<◌, ◌≤◌, ◌^◌, [], ◌∷◌, ◌++◌, IfOk, OnOk, length};
ghost use Rattle.spf_term.specs.Environment.{Environment};
ghost use Rattle.spf_term.specs.Walk.{Walks};
ghost use Rattle.spf_space.specs.Layout.{cells_in};
ghost use Rattle.spf_store.specs.Event.{Access};
ghost use Rattle.spf_store.specs.FirstFault.{visit_limit};
ghost use Rattle.spf_access.specs.Progress.{Accepts, IsCounted, IsVisited, Refuses};

use crate::compare::element;
use crate::stop::Stop;
use spf_base::NoMemory;
use spf_space::Shape;
use spf_touch::{Class, TouchLists, Touches};
use std::alloc::Global;
use std::marker::Model;

/// The most visits of all steps together.
const VISIT_LIMIT: u64 = 16777216;

/// The touch lists so far, and how many visits there were.
#[derive(Drop)]
pub(crate) struct Progress<'a> {
    shape: &'a Shape,
    lists: TouchLists,
    visits: u32,
}

impl<'a> Model for Progress<'a> {
    ghost use Rattle.spf_access.specs.Progress.{IsProgress, Progress};

    ghost Value = { Progress };

    ghost view = { λ progress. record {
      steps = progress.shape.now.steps;
      arrays = progress.shape.now.arrays;
      closed = progress.lists.closed;
      current = progress.lists.current;
      visits = progress.visits;
    } };

    ghost invariant = { λ progress. IsProgress (record {
      steps = progress.shape.now.steps;
      arrays = progress.shape.now.arrays;
      closed = progress.lists.closed;
      current = progress.lists.current;
      visits = progress.visits;
    }) progress.lists.cells };
}

/// How many cells the arrays have.
fn cells(shape: &Shape) -> u32
    ensures { result ≡ cells_in shape.now.arrays }
{
    shape
        .arrays
        .as_slice()
        .iter()
        .map(|array| array.length)
        .sum()
}

/// The number of the next visit, unless there are too many then.
fn next_visit(visits: u32, steps: u32) -> Result<u32, Stop>
    requires some { 0 < steps }
    requires few { visits * steps ≤ visit_limit }
    ensures { IsCounted visits steps result }
{
    let count = (u64::from(visits) + 1) * u64::from(steps);
    if count > VISIT_LIMIT {
        return Err(Stop::Visits { count });
    }
    Ok(visits + 1)
}

impl<'a> Progress<'a> {
    /// No unit is done. Linear in the cells.
    pub(crate) fn new(alloc: Global, shape: &'a Shape) -> Result<Progress<'a>, NoMemory>
        requires { 0 < shape.now.steps }
        ensures { IfOk result (λ progress. progress ≡ record { steps = shape.now.steps; arrays = shape.now.arrays; closed = []; current = []; visits = 0 }) }
    {
        let lists = TouchLists::new(alloc, cells(shape))?;
        Ok(Progress {
            shape,
            lists,
            visits: 0,
        })
    }

    /// Counts a visit, unless there are too many then.
    pub(crate) fn visit(&mut self) -> Result<(), Stop>
        ensures { IsVisited self.old self.new result }
    {
        self.visits = next_visit(self.visits, self.shape.steps)?;
        Ok(())
    }

    /// Counts an access, compares its subscript, and notes it.
    pub(crate) fn access(
        &mut self,
        site: u32,
        class: Class,
        array: u32,
        place: i64,
    ) -> Result<(), Stop>
        ensures { (env : Environment) → Walks (Accepts env) (Refuses env) self.old (Access site class array place ∷ []) result self.new }
    {
        let visits = next_visit(self.visits, self.shape.steps)?;
        let element = element(self.shape.arrays.as_slice(), site, array, place)?;
        self.lists.note(element, class)?;
        self.visits = visits;
        Ok(())
    }

    /// The unit at work is done.
    pub(crate) fn close(&mut self) -> Result<(), NoMemory>
        requires { length self.old.closed < 2 ^ 32 - 1 }
        ensures { OnOk result (self.new ≡ record self.old { closed = self.old.closed ++ self.old.current ∷ []; current = [] }) }
    {
        self.lists.close()
    }

    /// The touch lists of the units that are done.
    pub(crate) fn finish(self) -> Touches
        ensures { result ≡ self.entry.closed }
    {
        self.lists.finish()
    }
}
