//! The number rule for whole conjunctions.

ghost use Rattle.std.specs.Prelude.{◌≡◌, ◌-◌, ◌^◌, ◌++◌, List, map, min};
ghost use Rattle.std.specs.List.{find, flat_map, sum_by};
ghost use Rattle.spf_term.specs.Bounded.{monomials};
ghost use Rattle.spf_term.specs.NumberRule.{is_outside, numbers};
ghost use Rattle.spf_term.specs.Wide.{IsNarrowed, plain};
ghost use Rattle.spf_term.specs.declared.term.Term.{Term};
ghost use Rattle.spf_term.specs.declared.wide.WideTerm.{WideTerm};
ghost use Rattle.spf_rel.specs.Rule.{IsTestedTogether, conj_excess};

use crate::relation::Conj;
use spf_term::{Term, TermFault, WideTerm, first_outside, monomials, narrowed, wide_monomials};
use sqlite_items::Items;
use std::alloc::Global;

/// The greatest number of monomials, nested ones counted.
pub(crate) const MOST_MONOMIALS: u64 = 16_384;

/// How many monomials the terms have together, nested ones counted, up to the greatest `u64`. Linear in the terms.
fn all_monomials(terms: &[Term]) -> u64
    ensures { result ≡ min (sum_by monomials terms.now) (2 ^ 64 - 1) }
{
    let mut count: u64 = 0;
    for term in terms {
        count = count.saturating_add(monomials(term));
    }
    count
}

/// The first coefficient or constant that is farther from 0 than 2^62. Linear in the terms.
fn any_outside(terms: &[Term]) -> Option<i64>
    ensures { result ≡ find is_outside (flat_map numbers terms.now) }
{
    for term in terms {
        if let Some(number) = first_outside(term) {
            return Some(number);
        }
    }
    None
}

/// Where the conjunction passes the number rule: its number of monomials above 16,384, up to the greatest `u64`, or else
/// its first number that is farther from 0 than 2^62. Linear in the conjunction.
pub(crate) fn conj_excess(conj: &Conj) -> Option<i128>
    ensures { result ≡ conj_excess conj.now }
{
    let equal = conj.equal.as_slice();
    let least = conj.least.as_slice();
    let count = all_monomials(equal).saturating_add(all_monomials(least));
    if count > MOST_MONOMIALS {
        return Some(i128::from(count));
    }
    if let Some(number) = any_outside(equal) {
        return Some(i128::from(number));
    }
    match any_outside(least) {
        Some(number) => Some(i128::from(number)),
        None => None,
    }
}

/// As `all_monomials`.
pub(crate) fn all_wide_monomials(terms: &[WideTerm]) -> u64
    ensures { result ≡ min (sum_by (λ term. monomials (plain term)) terms.now) (2 ^ 64 - 1) }
{
    let mut count: u64 = 0;
    for term in terms {
        count = count.saturating_add(wide_monomials(term));
    }
    count
}

/// The terms of these numbers, or the first of them that is farther from 0 than 2^62. Linear in the terms.
pub(crate) fn all_narrowed(alloc: Global, terms: &[WideTerm]) -> Result<Items<Term>, TermFault>
    ensures { IsNarrowed (flat_map (λ term. numbers (plain term)) terms.now) (map plain terms.now) result }
{
    let mut made = Items::new(alloc);
    for term in terms {
        match narrowed(alloc, term) {
            Ok(term) => made.push(term)?,
            Err(fault) => return Err(fault),
        }
    }
    Ok(made)
}

/// The conjunction of these terms, if it keeps the number rule. Linear in the terms.
pub(crate) fn tested_together(
    alloc: Global,
    inner: u32,
    equal: &[WideTerm],
    least: &[WideTerm],
) -> Result<Conj, TermFault>
    ensures { IsTestedTogether (record { inner = inner; equal = map plain equal.now; least = map plain least.now }) result }
{
    let count = all_wide_monomials(equal).saturating_add(all_wide_monomials(least));
    if count > MOST_MONOMIALS {
        return Err(TermFault::Wide {
            count: i128::from(count),
        });
    }
    match all_narrowed(alloc, equal) {
        Ok(equal) => match all_narrowed(alloc, least) {
            Ok(least) => Ok(Conj {
                inner,
                equal,
                least,
            }),
            Err(fault) => Err(fault),
        },
        Err(fault) => Err(fault),
    }
}
