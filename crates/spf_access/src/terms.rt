//! The walk through an index expression.

ghost use Rattle.std.specs.Prelude.{◌≡◌, ◌+◌, ◌<◌, ◌^◌, IfOk, length};
ghost use Rattle.spf_term.specs.Value.{IsSmall, applications, table_at, value};
ghost use Rattle.spf_term.specs.Walk.{Walks};
ghost use Rattle.spf_store.specs.Trace.{term_trace};
ghost use Rattle.spf_access.specs.Progress.{Accepts, Progress, Refuses};

use crate::compare::place_in;
use crate::stop::Stop;
use spf_term::{Env, Reader, Term, Walked, walk};

/// How many entries a table has, and none where it isn't there.
pub(crate) fn table_length(env: &Env, table: u32) -> usize
    ensures { result ≡ length (table_at env.now table) }
{
    match env.tables.get(table as usize) {
        Some(table) => table.len(),
        None => 0,
    }
}

/// Stops at the first entry that is outside its table.
#[derive(Drop)]
struct Inside<'a> {
    env: &'a Env,
}

impl Reader for Inside<'_> {
    type Stop = Stop;

    ghost use Rattle.std.specs.Prelude.{◌≡◌, [], None, Some};
    ghost use Rattle.spf_store.specs.Event.{Read};
    ghost use Rattle.spf_store.specs.FirstFault.{outside_in};
    ghost use Rattle.spf_access.specs.Progress.{range_stop};

    ghost accepts = { λ before entry after. (outside_in before.env.now [] (Read entry) ≡ None) × (after ≡ before) };

    ghost refuses = { λ before entry stop. range_stop (outside_in before.env.now [] (Read entry)) ≡ Some stop };

    fn entry(&mut self, site: u32, table: u32, place: i64) -> Result<(), Stop> {
        place_in(site, place, table_length(self.env, table))
    }
}

/// Evaluates a term, and stops at the first entry that is outside its table. It makes no difference to the progress.
pub(crate) fn walk_term(
    env: &Env,
    variables: &[i64],
    term: &Term,
    site: u32,
) -> Result<Walked, Stop>
    requires small { IsSmall env.now variables.now term.now }
    requires numbered { site + applications term.now < 2 ^ 32 }
    ensures walks { (progress : Progress) → Walks (Accepts env.now) (Refuses env.now) progress (term_trace env.now variables.now site term.now) result progress }
    ensures value { IfOk result (λ walked. walked.value ≡ value env.now variables.now term.now) }
    ensures next { IfOk result (λ walked. walked.next ≡ site + applications term.now) }
{
    let mut inside = Inside { env };
    walk(env, variables, term, site, &mut inside)
}
