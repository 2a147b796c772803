//! The order of terms.

ghost use Rattle.std.specs.Prelude.{◌≡◌};
ghost use Rattle.std.specs.Cmp.{IsTotalOrder};
ghost use Rattle.std.specs.Ordering.{int_cmp, ordering_then};
ghost use Rattle.std.specs.declared.cmp.Ordering.TheVariants.{Equal};
ghost use Rattle.spf_term.specs.Order.{atom_cmp, term_cmp};
ghost use Rattle.spf_term.specs.declared.term.Term.{Term};

use crate::term::{Atom, Mono, Term};
use std::cmp::Ordering;

/// Variables, parameters, applications.
#[cycle(compare)]
fn compare_atoms(a: &Atom, b: &Atom) -> Ordering
    ensures { result ≡ atom_cmp a.now b.now }
{
    match (a, b) {
        (Atom::Var(number), Atom::Var(other)) => number.cmp(other),
        (Atom::Var(_), _) => Ordering::Less,
        (_, Atom::Var(_)) => Ordering::Greater,
        (Atom::Param(number), Atom::Param(other)) => number.cmp(other),
        (Atom::Param(_), _) => Ordering::Less,
        (_, Atom::Param(_)) => Ordering::Greater,
        (
            Atom::App { fun, arg },
            Atom::App {
                fun: other_fun,
                arg: other,
            },
        ) => {
            match fun.cmp(other_fun) {
                Ordering::Equal => compare(arg, other),
                order => order,
            }
        }
    }
}

/// By atom, and then by coefficient.
#[cycle(compare)]
fn compare_monos(a: &Mono, b: &Mono) -> Ordering
    ensures { result ≡ ordering_then (atom_cmp a.now.atom b.now.atom) (int_cmp a.now.coef b.now.coef) }
{
    match compare_atoms(&a.atom, &b.atom) {
        Ordering::Equal => a.coef.cmp(&b.coef),
        order => order,
    }
}

/// The order of terms: by their monomials from the front, a proper prefix first, and then by constant. Linear in the shorter
/// term; recurses as deep as it nests.
#[cycle(compare)]
pub fn compare(a: &Term, b: &Term) -> Ordering
    ensures { result ≡ term_cmp a.now b.now }
{
    let others = b.monos.as_slice();
    for (index, mono) in a.monos.as_slice().iter().enumerate() {
        let Some(other) = others.get(index) else {
            return Ordering::Greater;
        };
        match compare_monos(mono, other) {
            Ordering::Equal => {}
            order => return order,
        }
    }
    if a.monos.len() < others.len() {
        Ordering::Less
    } else {
        a.constant.cmp(&b.constant)
    }
}

/// Law: the order of terms is total, and only equal terms compare equal.
pub fn terms_are_ordered()
    ensures total { IsTotalOrder term_cmp }
    ensures exact { (a b : Term) → term_cmp a b ≡ Equal → a ≡ b }
{}
