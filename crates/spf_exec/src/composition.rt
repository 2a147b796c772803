//! Index expressions of the source as terms of positions, composed by the calls on relations.

ghost use Rattle.std.specs.Prelude.{◌≡◌, ◌∷◌, [], IfOk, Option, Result};
ghost use Rattle.spf_term.specs.declared.fault.TermFault.{TermFault};
ghost use Rattle.spf_term.specs.declared.term.Term.{Term};
ghost use Rattle.spf_rel.specs.Graph.{IsOnly, graph};
ghost use Rattle.spf_exec.specs.Composed.{composed, sources, variable};
ghost use Rattle.spf_exec.specs.Placeable.{IsIteration, IsPlaceable};

use crate::terms::variable;
use spf_base::NoMemory;
use spf_rel::{
    Rel, as_function, compose, compositions_have_one_function, compositions_stay_light,
    first_variables_are_replaced, graph, graphs_are_formed, inverse, inverses_are_graphs, reversed,
};
use spf_term::{Term, TermFault, numbers_are_within_the_size};
use sqlite_items::Items;
use std::alloc::Global;

/// The one term that was found.
fn only(found: Result<Option<Items<Term>>, TermFault>) -> Result<Term, NoMemory>
    requires { (term : Term) × IsOnly term found }
    ensures { (term : Term) → IsOnly term found → IfOk result (λ made. made ≡ term) }
{
    match found {
        Ok(Some(mut terms)) => match terms.pop() {
            Some(term) => Ok(term),
            None => unreachable!(),
        },
        Err(TermFault::Memory) => Err(NoMemory),
        Ok(None) | Err(TermFault::Wide { .. }) => unreachable!(),
    }
}

/// The source's outer and inner variable as terms of the position and the inner variable.
fn sources(alloc: Global, iteration: &Term) -> Result<Items<Term>, NoMemory>
    ensures { IfOk result (λ made. made ≡ iteration.now ∷ variable 1 ∷ []) }
{
    let mut sources = Items::new(alloc);
    sources.push(Term::copy(alloc, iteration)?)?;
    sources.push(variable(alloc, 1)?)?;
    Ok(sources)
}

/// The relation from positions to the source's variables: the inverse of the loop's reordering.
fn to_sources(alloc: Global, iteration: &Term) -> Result<Rel, NoMemory>
    requires { IsIteration iteration.now }
    ensures { IfOk result (λ made. made ≡ graph 2 (sources iteration.now)) }
{
    numbers_are_within_the_size();
    inverses_are_graphs();
    let sources = sources(alloc, iteration)?;
    let reordering = reversed(alloc, 2, sources.as_slice())?;
    inverse(alloc, &reordering)
}

/// The relation from the source's variables to the numbers of the index expression.
fn access(alloc: Global, term: &Term) -> Result<Rel, NoMemory>
    requires { IsPlaceable term.now }
    ensures { IfOk result (λ made. made ≡ graph 2 (term.now ∷ [])) }
{
    graph(alloc, 2, std::slice::from_ref(term))
}

/// The index expression with the iteration in place of the loop's variable, as the one output of a composition: the inverse of
/// the reordering leads from positions to variables of the source, and the expression from these to its numbers. It takes as
/// long as the terms, before those of one atom are added, take to sort.
pub(crate) fn composed(alloc: Global, iteration: &Term, term: &Term) -> Result<Term, NoMemory>
    requires iteration { IsIteration iteration.now }
    requires term { IsPlaceable term.now }
    ensures { IfOk result (λ made. made ≡ composed iteration.now term.now) }
{
    numbers_are_within_the_size();
    compositions_have_one_function();
    compositions_stay_light();
    first_variables_are_replaced();
    graphs_are_formed();
    let to_sources = to_sources(alloc, iteration)?;
    let access = access(alloc, term)?;
    let composition = compose(alloc, &access, &to_sources)?;
    only(as_function(alloc, &composition))
}
