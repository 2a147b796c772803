//! Values.

ghost use Rattle.std.specs.Prelude.{◌≡◌, IfOk, map};
ghost use Rattle.spf_lex.specs.Tokens.{texts};
ghost use Rattle.spf_kernel.specs.Facts.{text_of, variables_in};
ghost use Rattle.spf_kernel.specs.Resolved.{variable_of, bare_factor, name_factor, factor_of, product, value_of};

use crate::check::names::{Source, text_of};
use crate::note::Scope;
use crate::raw::{RawAtom, RawFactor, RawSummand, RawValue};
use crate::resolve::terms::{resolve_ix, variable};
use crate::tree::{Factor, Prod, Value};
use spf_base::NoMemory;
use spf_lex::Token;
use sqlite_items::Items;

/// A name without brackets.
fn bare_factor(source: &Source, scope: Scope, name: Token) -> Factor
    ensures { result ≡ bare_factor (texts source.now.tokens.now) source.now.names.now (variable_of (variables_in (texts source.now.tokens.now) scope) (text_of (texts source.now.tokens.now) name)) name }
{
    match variable(source.tokens, scope, name) {
        Some(variable) => Factor::Var(variable),
        None => Factor::Param(source.names.param(text_of(source.tokens, name))),
    }
}

/// A name, with brackets or without.
fn resolve_name(source: &Source, scope: Scope, atom: &RawAtom) -> Result<Factor, NoMemory>
    ensures { IfOk result (λ factor. factor ≡ name_factor (texts source.now.tokens.now) source.now.names.now scope atom.now) }
{
    let Some(at) = &atom.at else {
        return Ok(bare_factor(source, scope, atom.name));
    };
    let sub = resolve_ix(source, scope, at.get())?;
    let name = text_of(source.tokens, atom.name);
    Ok(if source.names.has_data(name) {
        Factor::Cell {
            array: source.names.data_array(name),
            sub,
        }
    } else {
        Factor::Index {
            array: source.names.table(name),
            sub,
        }
    })
}

#[cycle(resolve_value)]
fn resolve_factor(source: &Source, scope: Scope, factor: &RawFactor) -> Result<Factor, NoMemory>
    ensures { IfOk result (λ found. found ≡ factor_of (texts source.now.tokens.now) source.now.names.now scope factor.now) }
{
    match factor {
        RawFactor::Number(number) => Ok(Factor::Number(number.value)),
        RawFactor::Paren(inside) => {
            let value = resolve_value(source, scope, inside.get())?;
            Ok(Factor::Paren(value))
        }
        RawFactor::Name(atom) => resolve_name(source, scope, atom),
    }
}

#[cycle(resolve_value)]
fn resolve_summand(source: &Source, scope: Scope, summand: &RawSummand) -> Result<Prod, NoMemory>
    ensures { IfOk result (λ found. found ≡ product summand.now.minus (map (factor_of (texts source.now.tokens.now) source.now.names.now scope) summand.now.facts)) }
{
    let minus = summand.minus;
    let mut facts = Items::new(source.alloc);
    for factor in summand.facts.as_slice() {
        facts.push(resolve_factor(source, scope, factor)?)?;
    }
    Ok(Prod { minus, facts })
}

/// The value that is meant. Linear in it.
#[cycle(resolve_value)]
#[tactic(auto, using(crate::proofs::TermEquations::value_is, std::proofs::lemmas::Grind::common_steps))]
pub(super) fn resolve_value(
    source: &Source,
    scope: Scope,
    value: &RawValue,
) -> Result<Value, NoMemory>
    ensures { IfOk result (λ found. found ≡ value_of (texts source.now.tokens.now) source.now.names.now scope value.now) }
{
    let mut prods = Items::new(source.alloc);
    for summand in value.summands.as_slice() {
        prods.push(resolve_summand(source, scope, summand)?)?;
    }
    Ok(Value { prods })
}
