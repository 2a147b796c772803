//! Writing values in the shape that they have in the source.

ghost use Rattle.std.specs.Prelude.{◌≡◌, ◌+◌, ◌<◌, ◌≤◌, ◌++◌, codes, length, IfOk, OnOk};
ghost use Rattle.spf_emit.specs.Places.{fact_places, prod_places, value_places};
ghost use Rattle.spf_emit.specs.Text.{by_number, fact_text, place_text, prod_text, term_at, value_text};

use crate::names::push_name_at;
use crate::parts::{Writing, push, push_between, push_cell, push_number, push_place, push_sign};
use spf_base::NoMemory;
use spf_kernel::tree::{Factor, Prod, Value};

/// Writes the loop variable at the place with this number, its term in parentheses, and gives the next number.
fn push_variable(text: &mut Vec<u8>, writing: &Writing, at: usize) -> Result<usize, NoMemory>
    requires { at < length writing.now.terms.now }
    ensures text { OnOk result (text.new.items ≡ text.old.items ++ codes "(" ++ place_text writing.now.names.now (term_at writing.now.terms.now at) ++ codes ")") }
    ensures next { IfOk result (λ next. next ≡ at + 1) }
{
    push(text, b"(")?;
    let next = push_place(text, writing, at)?;
    push(text, b")")?;
    Ok(next)
}

#[cycle(push_value)]
fn push_fact(
    text: &mut Vec<u8>,
    writing: &Writing,
    at: usize,
    fact: &Factor,
) -> Result<usize, NoMemory>
    requires { at + fact_places fact.now ≤ length writing.now.terms.now }
    ensures text { OnOk result (text.new.items ≡ text.old.items ++ fact_text writing.now.names.now (by_number writing.now.terms.now) at fact.now) }
    ensures next { IfOk result (λ next. next ≡ at + fact_places fact.now) }
{
    match fact {
        Factor::Number(number) => {
            push_number(text, *number)?;
            Ok(at)
        }
        Factor::Paren(inside) => {
            push(text, b"(")?;
            let next = push_value(text, writing, at, inside)?;
            push(text, b")")?;
            Ok(next)
        }
        Factor::Param(number) => {
            push_name_at(text, &writing.names.params, *number)?;
            Ok(at)
        }
        Factor::Var(_) => push_variable(text, writing, at),
        Factor::Index { .. } => push_place(text, writing, at),
        Factor::Cell { array, .. } => push_cell(text, writing, at, *array),
    }
}

#[cycle(push_value)]
fn push_prod(
    text: &mut Vec<u8>,
    writing: &Writing,
    first: usize,
    prod: &Prod,
) -> Result<usize, NoMemory>
    requires { first + prod_places prod.now ≤ length writing.now.terms.now }
    ensures text { OnOk result (text.new.items ≡ text.old.items ++ prod_text writing.now.names.now (by_number writing.now.terms.now) first prod.now) }
    ensures next { IfOk result (λ next. next ≡ first + prod_places prod.now) }
{
    let mut at = first;
    for (n, fact) in prod.facts.as_slice().iter().enumerate() {
        push_between(text, b" * ", n)?;
        at = push_fact(text, writing, at, fact)?;
    }
    Ok(at)
}

/// Writes a value whose first place has this number, and gives the number of the place behind it. Linear in what it writes;
/// recurses as deep as parentheses and terms nest.
#[cycle(push_value)]
pub(crate) fn push_value(
    text: &mut Vec<u8>,
    writing: &Writing,
    first: usize,
    value: &Value,
) -> Result<usize, NoMemory>
    requires { first + value_places value.now ≤ length writing.now.terms.now }
    ensures text { OnOk result (text.new.items ≡ text.old.items ++ value_text writing.now.names.now (by_number writing.now.terms.now) first value.now) }
    ensures next { IfOk result (λ next. next ≡ first + value_places value.now) }
{
    let mut at = first;
    for (n, prod) in value.prods.as_slice().iter().enumerate() {
        push_sign(text, n, prod.minus)?;
        at = push_prod(text, writing, at, prod)?;
    }
    Ok(at)
}
