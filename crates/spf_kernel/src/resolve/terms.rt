//! Index expressions as terms.

ghost use Rattle.std.specs.Prelude.{◌≡◌, ◌++◌, OnOk, IfOk};
ghost use Rattle.spf_base.specs.Wrap.{wrap};
ghost use Rattle.spf_lex.specs.Tokens.{texts};
ghost use Rattle.spf_kernel.specs.Facts.{text_of, variables_in};
ghost use Rattle.spf_kernel.specs.Resolved.{signed, alone_of, constant_of, variable_of, bare_atom, atom_of, monos_of, term_of};

use crate::check::names::{Source, text_of};
use crate::note::Scope;
use crate::raw::{RawAtom, RawIx, RawMono};
use spf_base::{NoMemory, wadd, wsub};
use spf_lex::{Token, Tokens};
use spf_term::{Atom, Mono, Term};
use sqlite_items::Items;

/// The number with the sign in front of it.
#[tactic(auto, using(crate::proofs::SignedNumbers::wrap_pos, crate::proofs::SignedNumbers::wrap_neg, std::proofs::lemmas::Grind::common_steps))]
fn signed(minus: bool, number: u64) -> i64
    ensures { result ≡ wrap (signed minus number) }
{
    let number = number.cast_signed();
    if minus { wsub(0, number) } else { number }
}

/// The part of the constant that a monomial is.
#[tactic(auto, using(crate::proofs::SignedNumbers::wrap_zero))]
fn alone(minus: bool, mono: &RawMono) -> i64
    ensures { result ≡ wrap (alone_of minus mono.now) }
{
    match mono {
        RawMono::Number(number, times) => match times {
            None => signed(minus, number.value),
            Some(_) => 0,
        },
        RawMono::Atom(_) => 0,
    }
}

/// The constant of a term. Linear in the monomials.
fn constant(ix: &RawIx) -> i64
    ensures { result ≡ wrap (constant_of ix.now) }
{
    let mut constant = 0;
    for step in ix.steps.as_slice() {
        constant = wadd(constant, alone(step.minus.is_some(), &step.mono));
    }
    constant
}

/// The number of the variable in scope that has this name.
pub(super) fn variable(tokens: &Tokens, scope: Scope, name: Token) -> Option<u32>
    ensures { result ≡ variable_of (variables_in (texts tokens.now) scope) (text_of (texts tokens.now) name) }
{
    let name = text_of(tokens, name);
    match scope {
        Scope::Within(outer) | Scope::Inside(outer, _) if name == text_of(tokens, outer) => Some(0),
        Scope::Inside(_, inner) if name == text_of(tokens, inner) => Some(1),
        _ => None,
    }
}

/// A name without brackets.
fn bare_atom(source: &Source, scope: Scope, name: Token) -> Atom
    ensures { result ≡ bare_atom (texts source.now.tokens.now) source.now.names.now (variable_of (variables_in (texts source.now.tokens.now) scope) (text_of (texts source.now.tokens.now) name)) name }
{
    match variable(source.tokens, scope, name) {
        Some(variable) => Atom::Var(variable),
        None => Atom::Param(source.names.param(text_of(source.tokens, name))),
    }
}

#[cycle(resolve_ix)]
#[tactic(auto, using(crate::proofs::TermEquations::atom_is_at, std::proofs::lemmas::Grind::common_steps))]
fn resolve_atom(source: &Source, scope: Scope, atom: &RawAtom) -> Result<Atom, NoMemory>
    ensures { IfOk result (λ found. found ≡ atom_of (texts source.now.tokens.now) source.now.names.now scope atom.now) }
{
    match &atom.at {
        Some(at) => Ok(Atom::App {
            fun: source.names.table(text_of(source.tokens, atom.name)),
            arg: resolve_ix(source, scope, at.get())?,
        }),
        None => Ok(bare_atom(source, scope, atom.name)),
    }
}

/// Adds the monomial, where it has an atom.
#[cycle(resolve_ix)]
fn add_mono(
    source: &Source,
    scope: Scope,
    minus: bool,
    mono: &RawMono,
    monos: &mut Items<Mono>,
) -> Result<(), NoMemory>
    ensures { OnOk result (monos.new ≡ monos.old ++ monos_of (texts source.now.tokens.now) source.now.names.now scope minus mono.now) }
{
    match mono {
        RawMono::Number(_, None) => Ok(()),
        RawMono::Number(number, Some(atom)) => {
            let coef = signed(minus, number.value);
            let atom = resolve_atom(source, scope, atom)?;
            monos.push(Mono { coef, atom })?;
            Ok(())
        }
        RawMono::Atom(atom) => {
            let coef = signed(minus, 1);
            let atom = resolve_atom(source, scope, atom)?;
            monos.push(Mono { coef, atom })?;
            Ok(())
        }
    }
}

/// The term that an index expression means. Linear in it.
#[cycle(resolve_ix)]
pub(super) fn resolve_ix(source: &Source, scope: Scope, ix: &RawIx) -> Result<Term, NoMemory>
    ensures { IfOk result (λ term. term ≡ term_of (texts source.now.tokens.now) source.now.names.now scope ix.now) }
{
    let mut monos = Items::new(source.alloc);
    for step in ix.steps.as_slice() {
        let minus = step.minus.is_some();
        add_mono(source, scope, minus, &step.mono, &mut monos)?;
    }
    Ok(Term {
        monos,
        constant: constant(ix),
    })
}
