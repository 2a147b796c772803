//! Steps 3 and 4 of simplification for lists of conjunctions, and those equal to an earlier one go.

ghost use Rattle.std.specs.Prelude.{◌≡◌, All, IfOk, OnOk};
ghost use Rattle.std.specs.List.{list_any};
ghost use Rattle.spf_rel.specs.Meaning.{IsFormed};
ghost use Rattle.spf_rel.specs.Simplified.{AreDistinct, IsTidy, same_conj, same_terms, with_new};

use crate::compaction::compact;
use crate::ordering::ordered;
use crate::relation::Conj;
use crate::settling::settle;
use spf_base::NoMemory;
use spf_term::{Term, compare};
use sqlite_items::Items;
use std::alloc::Global;

/// Step 4. It takes what `compact` takes, and for n constraints n log n comparisons of terms.
fn tidy(alloc: Global, outer: u32, conj: Conj) -> Result<Conj, NoMemory>
    requires { IsFormed outer conj }
    ensures { IfOk result (λ made. IsTidy outer conj made) }
{
    let kept = compact(alloc, outer, conj)?;
    let equal = ordered(alloc, kept.equal.as_slice())?;
    let least = ordered(alloc, kept.least.as_slice())?;
    Ok(Conj {
        inner: kept.inner,
        equal,
        least,
    })
}

/// The same terms in the same order. Linear in the shorter list.
fn same_terms(terms: &[Term], others: &[Term]) -> bool
    ensures { result ≡ same_terms terms.now others.now }
{
    if terms.len() != others.len() {
        return false;
    }
    for (index, term) in terms.iter().enumerate() {
        if !compare(term, &others[index]).is_eq() {
            return false;
        }
    }
    true
}

/// Equal, constraint by constraint. Linear in the shorter one.
fn same_conj(a: &Conj, b: &Conj) -> bool
    ensures { result ≡ same_conj a.now b.now }
{
    if a.inner != b.inner {
        return false;
    }
    if !same_terms(a.equal.as_slice(), b.equal.as_slice()) {
        return false;
    }
    same_terms(a.least.as_slice(), b.least.as_slice())
}

fn any_same(conjs: &[Conj], conj: &Conj) -> bool
    ensures { result ≡ list_any (same_conj conj.now) conjs.now }
{
    for other in conjs {
        if same_conj(conj, other) {
            return true;
        }
    }
    false
}

/// Adds the conjunction, unless an equal one is there. It goes through all that are there.
fn push_new(made: &mut Items<Conj>, conj: Conj) -> Result<(), NoMemory>
    ensures { OnOk result (made.new ≡ with_new conj made.old) }
{
    if any_same(made.as_slice(), &conj) {
        return Ok(());
    }
    made.push(conj)?;
    Ok(())
}

/// Steps 3 and 4 for each conjunction, each result once. It compares each result with all those kept before it, so it takes
/// n^2 comparisons of conjunctions for n.
pub(crate) fn tidied(alloc: Global, outer: u32, conjs: &[Conj]) -> Result<Items<Conj>, NoMemory>
    requires { All (IsFormed outer) conjs.now }
    ensures { IfOk result (λ made. AreDistinct outer conjs.now made) }
{
    let mut made = Items::new(alloc);
    for conj in conjs {
        if let Some(left) = settle(alloc, conj)? {
            push_new(&mut made, tidy(alloc, outer, left)?)?;
        }
    }
    Ok(made)
}
