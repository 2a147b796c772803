//! The number rule: how many monomials terms may have, and how large their numbers may be.

ghost use Rattle.std.specs.Prelude.{◌≡◌, ◌-◌, ◌^◌, [], ◌∷◌, min};
ghost use Rattle.std.specs.List.{find};
ghost use Rattle.spf_term.specs.Bounded.{atom_monomials, monomials};
ghost use Rattle.spf_term.specs.NumberRule.{excess, is_outside, mono_numbers, numbers};

use crate::term::{Atom, Mono, Term};

/// The greatest number of monomials, nested ones counted.
pub(crate) const MOST_MONOMIALS: u64 = 16_384;

/// The greatest distance from 0 of a coefficient or constant.
pub(crate) const LARGEST: u64 = 1 << 62;

/// The atom's monomials, nested ones counted, as `monomials` counts them.
#[cycle(monomials)]
fn atom_monomials(atom: &Atom) -> u64
    ensures { result ≡ min (atom_monomials atom.now) (2 ^ 64 - 1) }
{
    match atom {
        Atom::Var(_) | Atom::Param(_) => 0,
        Atom::App { arg, .. } => monomials(arg),
    }
}

/// How many monomials the term has, nested ones counted, up to the greatest `u64`. Linear in the term; recurses as deep as
/// it nests.
#[cycle(monomials)]
pub fn monomials(term: &Term) -> u64
    ensures { result ≡ min (monomials term.now) (2 ^ 64 - 1) }
{
    let mut count: u64 = 0;
    for mono in term.monos.as_slice() {
        let here = atom_monomials(&mono.atom).saturating_add(1);
        count = count.saturating_add(here);
    }
    count
}

fn is_outside(number: i64) -> bool
    ensures { result ≡ is_outside number }
{
    number.unsigned_abs() > LARGEST
}

fn checked(number: i64) -> Option<i64>
    ensures { result ≡ find is_outside (number ∷ []) }
{
    if is_outside(number) {
        Some(number)
    } else {
        None
    }
}

#[cycle(first_outside)]
fn first_outside_mono(mono: &Mono) -> Option<i64>
    ensures { result ≡ find is_outside (mono_numbers mono.now) }
{
    match &mono.atom {
        Atom::Var(_) | Atom::Param(_) => checked(mono.coef),
        Atom::App { arg, .. } => match checked(mono.coef) {
            Some(number) => Some(number),
            None => first_outside(arg),
        },
    }
}

/// The first coefficient or constant that is farther from 0 than 2^62. Linear in the term; recurses as deep as it nests.
#[cycle(first_outside)]
pub fn first_outside(term: &Term) -> Option<i64>
    ensures { result ≡ find is_outside (numbers term.now) }
{
    for mono in term.monos.as_slice() {
        if let Some(number) = first_outside_mono(mono) {
            return Some(number);
        }
    }
    checked(term.constant)
}

/// Where the term passes the number rule: its number of monomials above 16,384, up to the greatest `u64`, or else its first
/// coefficient or constant that is farther from 0 than 2^62. Linear in the term; recurses as deep as it nests.
pub fn excess(term: &Term) -> Option<i128>
    ensures { result ≡ excess term.now }
{
    let count = monomials(term);
    if count > MOST_MONOMIALS {
        return Some(i128::from(count));
    }
    match first_outside(term) {
        Some(number) => Some(i128::from(number)),
        None => None,
    }
}
