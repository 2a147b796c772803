//! The visitor that carries out what it comes by.

ghost use Rattle.std.specs.Prelude.{◌≡◌, ◌+◌, ◌<◌, ◌^◌, ◌∷◌, [], All};
ghost use Rattle.std.specs.List.{sum_by};
ghost use Rattle.spf_kernel.specs.BodySites.{item_sites};
ghost use Rattle.spf_store.specs.Done.{IsDone};
ghost use Rattle.spf_store.specs.Effect.{effect};
ghost use Rattle.spf_store.specs.Needs.{Allows};
ghost use Rattle.spf_store.specs.Small.{IsSmallItem};
ghost use Rattle.spf_store.specs.Trace.{items_trace};

use crate::assigns::carry_out;
use crate::body_sites::assign_sites;
use crate::terms::evaluate;
use crate::visitor::Visitor;
use crate::walk::walk_iteration;
use spf_kernel::tree::{Assign, Item};
use spf_term::{Env, Term, Walked};
use spf_touch::Cells;
use std::convert::Infallible;

/// Where terms are evaluated, and the first element of each data array.
#[derive(Drop)]
struct Effects<'a> {
    env: &'a Env,
    starts: &'a [u32],
}

impl<C: Cells> Visitor<C> for Effects<'_> {
    type Stop = Infallible;

    ghost use Rattle.std.specs.Prelude.{◌∷◌, []};
    ghost use Rattle.spf_store.specs.Done.{IsDone};
    ghost use Rattle.spf_store.specs.Effect.{effect};
    ghost use Rattle.spf_store.specs.Needs.{Allows};
    ghost use Rattle.spf_store.specs.Stays.{allows_still};

    ghost env = { λ effects. effects.env.now };

    ghost may = { λ effects cells event. Allows effects.starts.now (C.own cells) event };

    ghost accepts = { λ effects before event after. IsDone C.own C.value C.kept (effect effects.env.now effects.starts.now (event ∷ [])) before after };

    ghost refuses = { λ effects before event stop. ⊥ };

    fn turn(&self, _cells: &mut C) -> Result<(), Infallible> {
        Ok(())
    }

    fn term(
        &self,
        _cells: &mut C,
        variables: &[i64],
        term: &Term,
        site: u32,
    ) -> Result<Walked, Infallible> {
        Ok(evaluate(self.env, variables, term, site))
    }

    fn bound(&self, _cells: &mut C, _site: u32, _value: i64) -> Result<(), Infallible> {
        Ok(())
    }

    fn assign(
        &self,
        cells: &mut C,
        variables: &[i64],
        assign: &Assign,
        site: u32,
    ) -> Result<u32, Infallible> {
        carry_out(self.env, self.starts, variables, assign, cells);
        Ok(site + assign_sites(assign))
    }

    ghost stays = { λ effects before after event other done. allows_still effects.starts.now (C.own before) (C.own after) done.owns other };
}

/// Runs an iteration of a loop with these items, on any cells, where each data array has its first element at its start.
/// Linear in the events and in what the assignments are written with; it takes no memory, and recurses as deep as index
/// expressions and values nest.
pub fn run_iteration<C: Cells>(
    env: &Env,
    starts: &[u32],
    items: &[Item],
    iteration: &[i64; 1],
    cells: &mut C,
)
    requires small { All (IsSmallItem env.now iteration.now) items.now }
    requires numbered { 1 + sum_by item_sites items.now < 2 ^ 32 }
    requires allows { All (Allows starts.now (C.own cells.old)) (items_trace env.now iteration.now 1 items.now) }
    ensures { IsDone C.own C.value C.kept (effect env.now starts.now (items_trace env.now iteration.now 1 items.now)) cells.old cells.new }
{
    match walk_iteration(&Effects { env, starts }, cells, iteration, items) {
        Ok(()) => (),
    }
}
