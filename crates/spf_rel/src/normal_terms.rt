//! Step 1 of simplification: terms are made normal, and equalities begin with a positive coefficient.

ghost use Rattle.std.specs.Prelude.{◌≡◌, None, All, IfOk, map};
ghost use Rattle.spf_term.specs.Normal.{normal};
ghost use Rattle.spf_term.specs.NumberRule.{excess};
ghost use Rattle.spf_term.specs.Solution.{oriented};
ghost use Rattle.spf_term.specs.Wide.{plain};
ghost use Rattle.spf_rel.specs.Rule.{IsTestedTogether, conj_excess};
ghost use Rattle.spf_rel.specs.Simplified.{normal_conj};

use crate::relation::Conj;
use crate::rule::tested_together;
use spf_base::NoMemory;
use spf_term::{Term, TermFault, WideTerm, normal_wide, oriented_wide};
use sqlite_items::Items;
use std::alloc::Global;

/// The normal forms, each beginning with a positive coefficient. For n monomials, nested ones counted, it takes n log n
/// comparisons of atoms.
fn normal_equalities(alloc: Global, terms: &[Term]) -> Result<Items<WideTerm>, NoMemory>
    requires { All (λ term. excess term ≡ None) terms.now }
    ensures { IfOk result (λ made. map plain made ≡ map (λ term. oriented (normal term)) terms.now) }
{
    let mut made = Items::new(alloc);
    for term in terms {
        let wide = normal_wide(alloc, term)?;
        made.push(oriented_wide(alloc, wide)?)?;
    }
    Ok(made)
}

/// The normal forms. For n monomials, nested ones counted, it takes n log n comparisons of atoms.
fn normal_inequalities(alloc: Global, terms: &[Term]) -> Result<Items<WideTerm>, NoMemory>
    requires { All (λ term. excess term ≡ None) terms.now }
    ensures { IfOk result (λ made. map plain made ≡ map normal terms.now) }
{
    let mut made = Items::new(alloc);
    for term in terms {
        made.push(normal_wide(alloc, term)?)?;
    }
    Ok(made)
}

/// Step 1, and the test of the number rule behind it. For n monomials, nested ones counted, it takes n log n comparisons of
/// atoms, and memory for n.
pub(crate) fn made_normal(alloc: Global, conj: &Conj) -> Result<Conj, TermFault>
    requires { conj_excess conj.now ≡ None }
    ensures { IsTestedTogether (normal_conj conj.now) result }
{
    let equal = normal_equalities(alloc, conj.equal.as_slice())?;
    let least = normal_inequalities(alloc, conj.least.as_slice())?;
    tested_together(alloc, conj.inner, equal.as_slice(), least.as_slice())
}
