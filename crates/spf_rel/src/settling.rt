//! Step 3 of simplification: constant constraints go, and a false one drops the conjunction.

ghost use Rattle.std.specs.Prelude.{◌≡◌, IfOk};
ghost use Rattle.std.specs.List.{filter, list_any};
ghost use Rattle.spf_rel.specs.Simplified.{has_monomials, is_false_equality, is_false_inequality, settled};

use crate::relation::Conj;
use spf_base::NoMemory;
use spf_term::Term;
use sqlite_items::Items;
use std::alloc::Global;

#[tactic(auto, using(crate::proofs::Constants::no_monomials, crate::proofs::Constants::some_monomials))]
fn has_monomials(term: &Term) -> bool
    ensures { result ≡ has_monomials term.now }
{
    if term.monos.len() == 0 {
        return false;
    }
    true
}

#[tactic(auto, using(crate::proofs::Constants::is_zero, crate::proofs::Constants::not_zero))]
fn is_false_equality(term: &Term) -> bool
    ensures { result ≡ is_false_equality term.now }
{
    if has_monomials(term) || term.constant == 0 {
        return false;
    }
    true
}

#[tactic(auto, using(crate::proofs::Constants::below_zero, crate::proofs::Constants::not_below))]
fn is_false_inequality(term: &Term) -> bool
    ensures { result ≡ is_false_inequality term.now }
{
    if has_monomials(term) || term.constant >= 0 {
        return false;
    }
    true
}

fn any_false_equality(terms: &[Term]) -> bool
    ensures { result ≡ list_any is_false_equality terms.now }
{
    for term in terms {
        if is_false_equality(term) {
            return true;
        }
    }
    false
}

fn any_false_inequality(terms: &[Term]) -> bool
    ensures { result ≡ list_any is_false_inequality terms.now }
{
    for term in terms {
        if is_false_inequality(term) {
            return true;
        }
    }
    false
}

/// Copies of the terms that aren't constant. Linear in the terms.
#[tactic(auto, using(crate::proofs::Constants::filter_with, crate::proofs::Constants::filter_without))]
fn with_monomials(alloc: Global, terms: &[Term]) -> Result<Items<Term>, NoMemory>
    ensures { IfOk result (λ made. made ≡ filter has_monomials terms.now) }
{
    let mut made = Items::new(alloc);
    for term in terms {
        if has_monomials(term) {
            made.push(Term::copy(alloc, term)?)?;
        }
    }
    Ok(made)
}

/// The conjunction without constant constraints, or nothing if one is false. Linear in the conjunction.
pub(crate) fn settle(alloc: Global, conj: &Conj) -> Result<Option<Conj>, NoMemory>
    ensures { IfOk result (λ made. made ≡ settled conj.now) }
{
    let equalities = conj.equal.as_slice();
    let inequalities = conj.least.as_slice();
    if any_false_equality(equalities) {
        return Ok(None);
    }
    if any_false_inequality(inequalities) {
        return Ok(None);
    }
    let equal = with_monomials(alloc, equalities)?;
    let least = with_monomials(alloc, inequalities)?;
    Ok(Some(Conj {
        inner: conj.inner,
        equal,
        least,
    }))
}
