//! What assignments compute.

ghost use Rattle.std.specs.Prelude.{◌≡◌, ◌+ℤ◌, pos, All};
ghost use Rattle.spf_base.specs.Wrap.{wrap};
ghost use Rattle.spf_term.specs.Value.{IsSmall, number_at, table_at, value};
ghost use Rattle.spf_store.specs.Effect as effect;
ghost use Rattle.spf_store.specs.Needs.{IsFactorReadable, IsPlaced, IsReadable};
ghost use Rattle.spf_store.specs.Products.{product};

use crate::terms::term_value;
use spf_base::{wadd, wmul, wsub};
use spf_kernel::tree::{Factor, Prod, Value};
use spf_term::{Env, Term, number_at};
use spf_touch::Cells;

/// The element of a data array at a subscript.
pub(crate) fn element(env: &Env, starts: &[u32], variables: &[i64], array: u32, sub: &Term) -> u32
    requires small { IsSmall env.now variables.now sub.now }
    requires placed { IsPlaced starts.now array (value env.now variables.now sub.now) }
    ensures { result ≡ effect.element env.now starts.now variables.now array sub.now }
{
    starts[array as usize] + term_value(env, variables, sub) as u32
}

/// The entry of an index array at a subscript.
fn entry(env: &Env, variables: &[i64], array: u32, sub: &Term) -> i64
    requires small { IsSmall env.now variables.now sub.now }
    ensures { result ≡ number_at (table_at env.now array) (value env.now variables.now sub.now) }
{
    number_at(env.table(array), term_value(env, variables, sub))
}

/// The value of a parameter.
fn param(env: &Env, number: u32) -> i64
    ensures { result ≡ number_at env.now.params (pos number) }
{
    number_at(env.params.as_slice(), i64::from(number))
}

/// The value of a variable.
fn variable(variables: &[i64], number: u32) -> i64
    ensures { result ≡ number_at variables.now (pos number) }
{
    number_at(variables, i64::from(number))
}

/// A number of the text, which wraps where it is 2^63.
fn numeral(number: u64) -> i64
    ensures { result ≡ wrap (pos number) }
{
    number.cast_signed()
}

#[cycle(value_of)]
fn factor_of<C: Cells>(
    env: &Env,
    starts: &[u32],
    variables: &[i64],
    cells: &C,
    factor: &Factor,
) -> i64
    requires readable { IsFactorReadable env.now starts.now (C.own cells.now) variables.now factor.now }
    ensures { result ≡ wrap (effect.fact_value env.now starts.now variables.now (C.value cells.now) factor.now) }
{
    match factor {
        Factor::Number(number) => numeral(*number),
        Factor::Paren(inside) => value_of(env, starts, variables, cells, inside),
        Factor::Param(number) => param(env, *number),
        Factor::Var(number) => variable(variables, *number),
        Factor::Index { array, sub } => entry(env, variables, *array, sub),
        Factor::Cell { array, sub } => cells.get(element(env, starts, variables, *array, sub)),
    }
}

#[cycle(value_of)]
fn product_of<C: Cells>(env: &Env, starts: &[u32], variables: &[i64], cells: &C, prod: &Prod) -> i64
    requires readable { All (IsFactorReadable env.now starts.now (C.own cells.now) variables.now) prod.now.facts }
    ensures { result ≡ wrap (product env.now starts.now variables.now (C.value cells.now) prod.now.facts) }
{
    let mut product = 1;
    for factor in prod.facts.as_slice() {
        let next = factor_of(env, starts, variables, cells, factor);
        product = wmul(product, next);
    }
    product
}

/// The sum, or the difference where the product has a minus in front of it.
fn sum_with(sum: i64, minus: bool, product: i64) -> i64
    ensures { result ≡ wrap (sum +ℤ effect.signed minus product) }
{
    if minus {
        wsub(sum, product)
    } else {
        wadd(sum, product)
    }
}

/// What an assignment's value is, wrapped to 64 bits, from the left to the right. Linear in it; recurses as deep as it nests.
#[cycle(value_of)]
pub(crate) fn value_of<C: Cells>(
    env: &Env,
    starts: &[u32],
    variables: &[i64],
    cells: &C,
    value: &Value,
) -> i64
    requires readable { IsReadable env.now starts.now (C.own cells.now) variables.now value.now }
    ensures { result ≡ wrap (effect.value env.now starts.now variables.now (C.value cells.now) value.now) }
{
    let mut sum = 0;
    for prod in value.prods.as_slice() {
        let product = product_of(env, starts, variables, cells, prod);
        sum = sum_with(sum, prod.minus, product);
    }
    sum
}
