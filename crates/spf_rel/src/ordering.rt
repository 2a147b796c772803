//! Constraints in the order of terms, each once.

ghost use Rattle.std.specs.Prelude.{◌≡◌, IfOk};
ghost use Rattle.spf_rel.specs.Simplified.{IsOrdered, is_last};

use spf_base::NoMemory;
use spf_term::{Term, compare, terms_are_ordered};
use sqlite_items::Items;
use std::alloc::Global;

/// The last of the terms is this one.
fn is_last(terms: &[Term], term: &Term) -> bool
    ensures { result ≡ is_last term.now terms.now }
{
    if terms.len() == 0 {
        return false;
    }
    compare(term, &terms[terms.len() - 1]).is_eq()
}

/// Copies of the terms. Linear in them.
fn copies(alloc: Global, terms: &[Term]) -> Result<Vec<Term>, NoMemory>
    ensures { IfOk result (λ made. made.items ≡ terms.now) }
{
    let mut made = Vec::new(alloc);
    for term in terms {
        made.push(Term::copy(alloc, term)?)?;
    }
    Ok(made)
}

/// The terms in order, each once. For n terms it takes n log n comparisons of terms, and memory for n.
pub(crate) fn ordered(alloc: Global, terms: &[Term]) -> Result<Items<Term>, NoMemory>
    ensures { IfOk result (λ made. IsOrdered terms.now made) }
{
    terms_are_ordered();
    let mut left = copies(alloc, terms)?;
    // The least term last, since they are taken from the end.
    left.sort_by(|a, b| compare(b, a))?;
    let mut made = Vec::new(alloc);
    while let Some(term) = left.pop() {
        if is_last(made.as_slice(), &term) {
            continue;
        }
        made.push(term)?;
    }
    Ok(Items::from_vec(made))
}
