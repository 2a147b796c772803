//! Wide terms that are negated.

ghost use Rattle.std.specs.Prelude.{◌≡◌, ◌<◌, ◌^◌, negsuc, IfOk, map, unsigned_abs};
ghost use Rattle.std.specs.List.{AllByRecursion};
ghost use Rattle.spf_term.specs.Solution.{is_negative, leads_negative, oriented, times};
ghost use Rattle.spf_term.specs.Substitution.{scaled};
ghost use Rattle.spf_term.specs.Wide.{HasOpposites, plain, plain_mono};
ghost use Rattle.spf_term.specs.declared.term.Mono.{Mono};
ghost use Rattle.spf_term.specs.declared.term.Term.{out-Term};

use crate::wide::{WideMono, WideTerm};
use spf_base::NoMemory;
use sqlite_items::Items;
use std::alloc::Global;

/// The monomials with their coefficients negated. Linear in their number.
fn opposite_monos(alloc: Global, mut monos: Items<WideMono>) -> Result<Items<WideMono>, NoMemory>
    requires { AllByRecursion (λ mono. unsigned_abs mono.coef < 2 ^ 127) (map plain_mono monos) }
    ensures { IfOk result (λ made. map plain_mono made ≡ scaled (negsuc 0) (map plain_mono monos)) }
{
    let mut turned = Vec::new(alloc);
    while let Some(mono) = monos.pop() {
        turned.push(WideMono {
            coef: -mono.coef,
            atom: mono.atom,
        })?;
    }
    turned.reverse();
    Ok(Items::from_vec(turned))
}

fn opposite(alloc: Global, term: WideTerm) -> Result<WideTerm, NoMemory>
    requires { HasOpposites (plain term) }
    ensures { IfOk result (λ made. plain made ≡ times (negsuc 0) (plain term)) }
{
    let constant = -term.constant;
    let monos = opposite_monos(alloc, term.monos)?;
    Ok(WideTerm { monos, constant })
}

#[tactic(auto, using(crate::proofs::Turning::below_zero, crate::proofs::Turning::not_below))]
fn is_negative(number: i128) -> bool
    ensures { result ≡ is_negative number }
{
    if number < 0 {
        return true;
    }
    false
}

fn leads_negative(term: &WideTerm) -> bool
    ensures { result ≡ leads_negative (out-Term (plain term.now)).monos }
{
    match term.monos.get(0) {
        Some(first) => is_negative(first.coef),
        None => false,
    }
}

/// The term, negated where its first monomial has a negative coefficient. Linear in its own monomials.
pub fn oriented_wide(alloc: Global, term: WideTerm) -> Result<WideTerm, NoMemory>
    requires { HasOpposites (plain term) }
    ensures { IfOk result (λ made. plain made ≡ oriented (plain term)) }
{
    if leads_negative(&term) {
        return opposite(alloc, term);
    }
    Ok(term)
}
