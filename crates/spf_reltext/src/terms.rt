//! Index expressions and constraints as terms.

ghost use Rattle.std.specs.Prelude.{◌≡◌, true, false, [], ◌∷◌, ◌++◌, ◌+ℤ◌, OnOk, IfOk};
ghost use Rattle.spf_base.specs.Wrap.{wrap};
ghost use Rattle.spf_reltext.specs.Resolved.{constant_between, constant_of, difference, equal_terms, ix_monos, least_terms, mono_of, monomial, opposite, part_of, plain_atom, signed};

use crate::names::{RelNames, number_of};
use crate::raw::{Compare, RawAtom, RawConstraint, RawIx, RawMono};
use crate::rules::contains;
use spf_base::{Name, NoMemory, wadd, wsub};
use spf_term::{Atom, Mono, Term};
use sqlite_items::Items;
use std::alloc::Global;

/// What names of a literal are looked up in: its variables, and the parameters and functions.
#[derive(Drop)]
pub(crate) struct Source<'a> {
    pub alloc: Global,
    pub variables: &'a [Name],
    pub names: &'a RelNames,
}

/// The number with the sign in front of it.
fn signed(minus: bool, number: u64) -> i64
    ensures { result ≡ wrap (signed minus number) }
{
    let number = number.cast_signed();
    if minus { wsub(0, number) } else { number }
}

fn opposite(flips: bool, minus: bool) -> bool
    ensures { result ≡ opposite flips minus }
{
    if flips { !minus } else { minus }
}

/// The part of the constant that a monomial is.
#[tactic(auto, using(crate::proofs::Signs::wrap_zero))]
fn part_of(flips: bool, mono: &RawMono) -> i64
    ensures { result ≡ wrap (part_of flips mono.now) }
{
    match &mono.atom {
        RawAtom::Unit => signed(opposite(flips, mono.minus), mono.number),
        RawAtom::Plain(_) => 0,
        RawAtom::Entry { .. } => 0,
    }
}

/// The sum of the numbers that stand alone. Linear in the monomials.
fn constant(flips: bool, ix: &RawIx) -> i64
    ensures { result ≡ wrap (constant_of flips ix.now) }
{
    let mut constant = 0;
    for mono in ix.monos.as_slice() {
        constant = wadd(constant, part_of(flips, mono));
    }
    constant
}

/// A name without brackets.
fn plain_atom(source: &Source, name: &Name) -> Result<Atom, NoMemory>
    ensures { IfOk result (λ atom. atom ≡ plain_atom source.now.variables.now source.now.names.now name.now) }
{
    if contains(source.variables, name) {
        return Ok(Atom::Var(number_of(source.variables, name)?));
    }
    Ok(Atom::Param(source.names.params.number_of(name)?))
}

fn push(monos: &mut Items<Mono>, minus: bool, number: u64, atom: Atom) -> Result<(), NoMemory>
    ensures { OnOk result (monos.new ≡ monos.old ++ monomial minus number atom) }
{
    let coef = signed(minus, number);
    monos.push(Mono { coef, atom })?;
    Ok(())
}

/// Adds the monomial, where it has an atom. Recurses as deep as its brackets.
#[cycle(terms)]
#[tactic(auto, using(crate::proofs::TermEquations::term_is))]
fn push_mono(
    source: &Source,
    minus: bool,
    number: u64,
    atom: &RawAtom,
    monos: &mut Items<Mono>,
) -> Result<(), NoMemory>
    ensures { OnOk result (monos.new ≡ monos.old ++ mono_of source.now.variables.now source.now.names.now minus number atom.now) }
{
    match atom {
        RawAtom::Unit => Ok(()),
        RawAtom::Plain(name) => push(monos, minus, number, plain_atom(source, name)?),
        RawAtom::Entry { name, at } => {
            let fun = source.names.funs.number_of(name)?;
            let mut nested = Items::new(source.alloc);
            push_monos(source, false, at, &mut nested)?;
            let arg = Term {
                monos: nested,
                constant: constant(false, at),
            };
            push(monos, minus, number, Atom::App { fun, arg })
        }
    }
}

/// Adds the monomials that have an atom, each with its sign or with the opposite one.
#[cycle(terms)]
fn push_monos(
    source: &Source,
    flips: bool,
    ix: &RawIx,
    monos: &mut Items<Mono>,
) -> Result<(), NoMemory>
    ensures { OnOk result (monos.new ≡ monos.old ++ ix_monos source.now.variables.now source.now.names.now flips ix.now) }
{
    for mono in ix.monos.as_slice() {
        let minus = opposite(flips, mono.minus);
        push_mono(source, minus, mono.number, &mono.atom, monos)?;
    }
    Ok(())
}

fn sides(left: &RawIx, right: &RawIx) -> i64
    ensures { result ≡ wrap (constant_of false left.now +ℤ constant_of true right.now) }
{
    wadd(constant(false, left), constant(true, right))
}

/// The constant of a difference.
fn constant_between(left: &RawIx, right: &RawIx, number: i64) -> i64
    ensures { result ≡ constant_between left.now right.now number }
{
    wadd(sides(left, right), number)
}

/// The first less the other, and the number, as they are written: it isn't made normal.
fn difference(source: &Source, left: &RawIx, right: &RawIx, number: i64) -> Result<Term, NoMemory>
    ensures { IfOk result (λ term. term ≡ difference source.now.variables.now source.now.names.now left.now right.now number) }
{
    let mut monos = Items::new(source.alloc);
    push_monos(source, false, left, &mut monos)?;
    push_monos(source, true, right, &mut monos)?;
    Ok(Term {
        monos,
        constant: constant_between(left, right, number),
    })
}

fn push_term(terms: &mut Items<Term>, term: Term) -> Result<(), NoMemory>
    ensures { OnOk result (terms.new ≡ terms.old ++ term ∷ []) }
{
    terms.push(term)?;
    Ok(())
}

/// Adds the term of an equality. Linear in it.
pub(crate) fn push_equal(
    source: &Source,
    equal: &mut Items<Term>,
    constraint: &RawConstraint,
) -> Result<(), NoMemory>
    ensures { OnOk result (equal.new ≡ equal.old ++ equal_terms source.now.variables.now source.now.names.now constraint.now) }
{
    let (left, right) = (&constraint.left, &constraint.right);
    match constraint.sign {
        Compare::Equal => push_term(equal, difference(source, left, right, 0)?),
        _ => Ok(()),
    }
}

/// Adds the term of an inequality. Linear in it.
pub(crate) fn push_least(
    source: &Source,
    least: &mut Items<Term>,
    constraint: &RawConstraint,
) -> Result<(), NoMemory>
    ensures { OnOk result (least.new ≡ least.old ++ least_terms source.now.variables.now source.now.names.now constraint.now) }
{
    let (left, right) = (&constraint.left, &constraint.right);
    match constraint.sign {
        Compare::Equal => Ok(()),
        Compare::AtMost => push_term(least, difference(source, right, left, 0)?),
        Compare::Less => push_term(least, difference(source, right, left, -1)?),
        Compare::AtLeast => push_term(least, difference(source, left, right, 0)?),
        Compare::Greater => push_term(least, difference(source, left, right, -1)?),
    }
}
