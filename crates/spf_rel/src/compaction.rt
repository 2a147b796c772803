//! Inner variables that don't occur go, and the others keep their order.

ghost use Rattle.std.specs.Prelude.{◌≡◌, ◌<◌, IfOk};
ghost use Rattle.std.specs.List.{list_any};
ghost use Rattle.spf_term.specs.Solution.{mentions};
ghost use Rattle.spf_rel.specs.Meaning.{IsFormed, IsNumbered};
ghost use Rattle.spf_rel.specs.Simplified.{closing, compacted, conj_mentions, without};

use crate::relation::Conj;
use crate::renumber::{Blocks, renumbered_terms};
use spf_base::NoMemory;
use spf_term::{Term, mentions};
use std::alloc::Global;

fn any_mentions(terms: &[Term], var: u32) -> bool
    ensures { result ≡ list_any (mentions var) terms.now }
{
    for term in terms {
        if mentions(term, var) {
            return true;
        }
    }
    false
}

fn conj_mentions(conj: &Conj, var: u32) -> bool
    ensures { result ≡ conj_mentions var conj.now }
{
    if any_mentions(conj.equal.as_slice(), var) {
        return true;
    }
    any_mentions(conj.least.as_slice(), var)
}

/// Variables behind this one take the number before theirs.
fn closing(var: u32) -> Blocks
    ensures { result ≡ closing var }
{
    Blocks {
        first: var,
        second: 1,
        to_first: 0,
        to_second: 0,
        to_others: var,
    }
}

/// The conjunction without this variable, which doesn't occur. Linear in the conjunction.
fn without(alloc: Global, conj: &Conj, var: u32) -> Result<Conj, NoMemory>
    requires inner { 0 < conj.now.inner }
    requires numbered { IsNumbered conj.now }
    ensures { IfOk result (λ made. made ≡ without var conj.now) }
{
    let equal = renumbered_terms(alloc, closing(var), &conj.equal)?;
    let least = renumbered_terms(alloc, closing(var), &conj.least)?;
    Ok(Conj {
        inner: conj.inner - 1,
        equal,
        least,
    })
}

/// The conjunction without the inner variables that don't occur. For each inner variable it goes through the conjunction
/// once, and for each that goes it copies the conjunction.
pub(crate) fn compact(alloc: Global, outer: u32, conj: Conj) -> Result<Conj, NoMemory>
    requires { IsFormed outer conj }
    ensures { IfOk result (λ made. made ≡ compacted outer conj.inner conj) }
{
    let mut current = conj;
    let mut left = current.inner;
    while left > 0 {
        left -= 1;
        let var = outer + left;
        if !conj_mentions(&current, var) {
            current = without(alloc, &current, var)?;
        }
    }
    Ok(current)
}
