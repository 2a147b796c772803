//! Wide terms whose numbers keep the number rule, as terms.

ghost use Rattle.std.specs.Prelude.{◌≡◌, ◌-◌, ◌^◌, [], ◌∷◌, min};
ghost use Rattle.spf_term.specs.Bounded.{atom_monomials, monomials};
ghost use Rattle.spf_term.specs.NumberRule.{IsTested, atom_numbers, mono_numbers, numbers};
ghost use Rattle.spf_term.specs.Wide.{IsNarrowed, plain, plain_atom, plain_mono};

use crate::fault::TermFault;
use crate::number_rule::{LARGEST, MOST_MONOMIALS};
use crate::term::{Atom, Mono, Term};
use crate::wide::{WideAtom, WideMono, WideTerm};
use sqlite_items::Items;
use std::alloc::Global;

#[cycle(wide_monomials)]
fn atom_wide_monomials(atom: &WideAtom) -> u64
    ensures { result ≡ min (atom_monomials (plain_atom atom.now)) (2 ^ 64 - 1) }
{
    match atom {
        WideAtom::Var(_) | WideAtom::Param(_) => 0,
        WideAtom::App { arg, .. } => wide_monomials(arg),
    }
}

/// As `monomials`.
#[cycle(wide_monomials)]
pub fn wide_monomials(term: &WideTerm) -> u64
    ensures { result ≡ min (monomials (plain term.now)) (2 ^ 64 - 1) }
{
    let mut count: u64 = 0;
    for mono in term.monos.as_slice() {
        let here = atom_wide_monomials(&mono.atom).saturating_add(1);
        count = count.saturating_add(here);
    }
    count
}

fn narrowed_number(number: i128) -> Result<i64, TermFault>
    ensures { IsNarrowed (number ∷ []) number result }
{
    match i64::try_from(number) {
        Ok(narrow) if narrow.unsigned_abs() <= LARGEST => Ok(narrow),
        _ => Err(TermFault::Wide { count: number }),
    }
}

#[cycle(narrowed)]
fn narrowed_atom(alloc: Global, atom: &WideAtom) -> Result<Atom, TermFault>
    ensures { IsNarrowed (atom_numbers (plain_atom atom.now)) (plain_atom atom.now) result }
{
    match atom {
        WideAtom::Var(number) => Ok(Atom::Var(*number)),
        WideAtom::Param(number) => Ok(Atom::Param(*number)),
        WideAtom::App { fun, arg } => match narrowed(alloc, arg) {
            Ok(arg) => Ok(Atom::App { fun: *fun, arg }),
            Err(fault) => Err(fault),
        },
    }
}

#[cycle(narrowed)]
fn narrowed_mono(alloc: Global, mono: &WideMono) -> Result<Mono, TermFault>
    ensures { IsNarrowed (mono_numbers (plain_mono mono.now)) (plain_mono mono.now) result }
{
    match narrowed_number(mono.coef) {
        Ok(coef) => match narrowed_atom(alloc, &mono.atom) {
            Ok(atom) => Ok(Mono { coef, atom }),
            Err(fault) => Err(fault),
        },
        Err(fault) => Err(fault),
    }
}

/// The term of these numbers, or the first of them that is farther from 0 than 2^62. Linear in the term; recurses as deep as
/// it nests.
#[cycle(narrowed)]
pub fn narrowed(alloc: Global, term: &WideTerm) -> Result<Term, TermFault>
    ensures { IsNarrowed (numbers (plain term.now)) (plain term.now) result }
{
    let mut monos = Items::new(alloc);
    for mono in term.monos.as_slice() {
        match narrowed_mono(alloc, mono) {
            Ok(mono) => monos.push(mono)?,
            Err(fault) => return Err(fault),
        }
    }
    match narrowed_number(term.constant) {
        Ok(constant) => Ok(Term { monos, constant }),
        Err(fault) => Err(fault),
    }
}

/// The term, if it keeps the number rule. Linear in the term; recurses as deep as it nests.
pub(crate) fn tested(alloc: Global, term: &WideTerm) -> Result<Term, TermFault>
    ensures { IsTested (plain term.now ∷ []) (plain term.now) result }
{
    let count = wide_monomials(term);
    if count > MOST_MONOMIALS {
        return Err(TermFault::Wide {
            count: i128::from(count),
        });
    }
    narrowed(alloc, term)
}
