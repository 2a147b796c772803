//! The walk through an iteration.

ghost use Rattle.std.specs.Prelude.{◌≡◌, ◌+◌, ◌<◌, ◌^◌, [], ◌∷◌, All, IfOk};
ghost use Rattle.std.specs.List.{sum_by};
ghost use Rattle.spf_term.specs.Value.{IsSmall, applications, value};
ghost use Rattle.spf_term.specs.Walk.{Walks};
ghost use Rattle.spf_kernel.specs.BodySites.{assign_sites, fact_sites, prod_sites, value_sites};
ghost use Rattle.spf_store.specs.Event.{Access, Store};
ghost use Rattle.spf_store.specs.Small.{IsSmallFactor, IsSmallValue};
ghost use Rattle.spf_store.specs.Trace.{access_trace, fact_trace, index_trace, value_trace};
ghost use Rattle.spf_access.specs.Progress.{Accepts, Refuses};
ghost use Rattle.spf_access.specs.ValueTrace.{prod_trace};

use crate::compare::{bound, place_in};
use crate::progress::Progress;
use crate::stop::Stop;
use crate::terms::{table_length, walk_term};
use spf_kernel::tree::{Assign, Factor, Prod, Tree, Value};
use spf_store::{Visitor, target_class};
use spf_term::{Env, Term, Walked, applications};
use spf_touch::Class;

/// Evaluates a subscript, and then accesses the data array there.
fn walk_access(
    env: &Env,
    progress: &mut Progress<'_>,
    variables: &[i64],
    class: Class,
    array: u32,
    sub: &Term,
    site: u32,
) -> Result<u32, Stop>
    requires small { IsSmall env.now variables.now sub.now }
    requires numbered { site + (1 + applications sub.now) < 2 ^ 32 }
    ensures walks { Walks (Accepts env.now) (Refuses env.now) progress.old (access_trace env.now variables.now site class array sub.now) result progress.new }
    ensures next { IfOk result (λ next. next ≡ site + (1 + applications sub.now)) }
{
    let walked = walk_term(env, variables, sub, site + 1)?;
    progress.access(site, class, array, walked.value)?;
    Ok(walked.next)
}

/// Evaluates a subscript, and then reads the index array there. It makes no difference to the progress.
fn walk_index(env: &Env, variables: &[i64], array: u32, sub: &Term, site: u32) -> Result<u32, Stop>
    requires small { IsSmall env.now variables.now sub.now }
    requires numbered { site + (1 + applications sub.now) < 2 ^ 32 }
    ensures walks { (progress : Progress) → Walks (Accepts env.now) (Refuses env.now) progress (index_trace env.now variables.now site array sub.now) result progress }
    ensures next { IfOk result (λ next. next ≡ site + (1 + applications sub.now)) }
{
    let walked = walk_term(env, variables, sub, site + 1)?;
    place_in(site, walked.value, table_length(env, array))?;
    Ok(walked.next)
}

#[cycle(value)]
fn walk_fact(
    env: &Env,
    progress: &mut Progress<'_>,
    variables: &[i64],
    fact: &Factor,
    site: u32,
) -> Result<u32, Stop>
    requires small { IsSmallFactor env.now variables.now fact.now }
    requires numbered { site + fact_sites fact.now < 2 ^ 32 }
    ensures walks { Walks (Accepts env.now) (Refuses env.now) progress.old (fact_trace env.now variables.now site fact.now) result progress.new }
    ensures next { IfOk result (λ next. next ≡ site + fact_sites fact.now) }
{
    match fact {
        Factor::Paren(inside) => walk_value(env, progress, variables, inside, site),
        Factor::Index { array, sub } => walk_index(env, variables, *array, sub, site),
        Factor::Cell { array, sub } => {
            walk_access(env, progress, variables, Class::Read, *array, sub, site)
        }
        Factor::Number(_) | Factor::Param(_) | Factor::Var(_) => Ok(site),
    }
}

#[cycle(value)]
fn walk_prod(
    env: &Env,
    progress: &mut Progress<'_>,
    variables: &[i64],
    prod: &Prod,
    site: u32,
) -> Result<u32, Stop>
    requires small { All (IsSmallFactor env.now variables.now) prod.now.facts }
    requires numbered { site + prod_sites prod.now < 2 ^ 32 }
    ensures walks { Walks (Accepts env.now) (Refuses env.now) progress.old (prod_trace env.now variables.now site prod.now) result progress.new }
    ensures next { IfOk result (λ next. next ≡ site + prod_sites prod.now) }
{
    let mut next = site;
    for fact in prod.facts.as_slice() {
        next = walk_fact(env, progress, variables, fact, next)?;
    }
    Ok(next)
}

/// Goes through the factors of a value, from the left to the right.
#[cycle(value)]
fn walk_value(
    env: &Env,
    progress: &mut Progress<'_>,
    variables: &[i64],
    value: &Value,
    site: u32,
) -> Result<u32, Stop>
    requires small { IsSmallValue env.now variables.now value.now }
    requires numbered { site + value_sites value.now < 2 ^ 32 }
    ensures walks { Walks (Accepts env.now) (Refuses env.now) progress.old (value_trace env.now variables.now site value.now) result progress.new }
    ensures next { IfOk result (λ next. next ≡ site + value_sites value.now) }
{
    let mut next = site;
    for prod in value.prods.as_slice() {
        next = walk_prod(env, progress, variables, prod, next)?;
    }
    Ok(next)
}

/// Who goes through the iterations of a kernel for their touch lists.
#[derive(Drop)]
pub(crate) struct Walk<'a> {
    pub(crate) env: &'a Env,
    pub(crate) tree: &'a Tree,
}

impl<'a, 'b> Visitor<Progress<'b>> for Walk<'a> {
    type Stop = Stop;

    ghost use Rattle.std.specs.Prelude.{⊤};
    ghost use Rattle.spf_access.specs.Progress.{Accepts, Refuses};

    ghost env = { λ walk. walk.env.now };

    ghost may = { λ walk progress event. ⊤ };

    ghost accepts = { λ walk. Accepts walk.env.now };

    ghost refuses = { λ walk. Refuses walk.env.now };

    fn turn(&self, progress: &mut Progress<'b>) -> Result<(), Stop> {
        progress.visit()
    }

    fn term(
        &self,
        _progress: &mut Progress<'b>,
        variables: &[i64],
        term: &Term,
        site: u32,
    ) -> Result<Walked, Stop> {
        walk_term(self.env, variables, term, site)
    }

    fn bound(&self, _progress: &mut Progress<'b>, site: u32, value: i64) -> Result<(), Stop> {
        bound(site, value)
    }

    fn assign(
        &self,
        progress: &mut Progress<'b>,
        variables: &[i64],
        assign: &Assign,
        site: u32,
    ) -> Result<u32, Stop> {
        let first = site + (1 + applications(&assign.sub));
        let next = walk_value(self.env, progress, variables, &assign.value, first)?;
        let class = target_class(assign.sign);
        walk_access(
            self.env,
            progress,
            variables,
            class,
            assign.array,
            &assign.sub,
            site,
        )?;
        Ok(next)
    }

    ghost stays = { λ walk before after event other accepted may. tt };
}
