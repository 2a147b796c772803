//! Rules 21 to 24, of a statement behind others.

ghost use Rattle.std.specs.Prelude.{◌≡◌, IfOk};
ghost use Rattle.std.specs.Option.{option_map};
ghost use Rattle.std.specs.Str.{bytes_eq};
ghost use Rattle.spf_calc.specs.Values.{result_shape, shape_of};
ghost use Rattle.spf_calc.specs.Rules.{breaks_given, breaks_kinds, breaks_limits, breaks_names, empty_shape, exp_of, fitting, is_given, is_good, is_uneven, kind_of, least_rule, misses, turned, value_named};

use crate::operating::fits;
use crate::raw::{Operation, RawExp, RawStatement};
use crate::value::{Binding, Value};
use spf_base::{Name, NoMemory};
use spf_reltext::Shape;
use std::alloc::Global;

/// The greatest arity behind `none`.
pub const MOST_ARITY: u64 = 8;

/// How many statements a text may have.
pub const MOST_STATEMENTS: u32 = 32;

// ---- names

fn has_name(binding: &Binding, name: &Name) -> bool
    ensures { result ≡ bytes_eq binding.now.name name.now }
{
    binding.name.bytes() == name.bytes()
}

fn is_given(bindings: &[Binding], name: &Name) -> bool
    ensures { result ≡ is_given bindings.now name.now }
{
    bindings.iter().any(|binding| has_name(binding, name))
}

/// The value of a name. Linear in the bindings.
pub(crate) fn value_named<'a>(bindings: &'a [Binding], name: &Name) -> Option<&'a Value>
    ensures { option_map (λ value. value.now) result ≡ value_named bindings.now name.now }
{
    match bindings.iter().find(|binding| has_name(binding, name)) {
        None => None,
        Some(binding) => Some(&binding.value),
    }
}

/// Whether a name stands in the expression that isn't given. Recurses as deep as operations nest, at most eight.
#[tactic(auto, using(crate::proofs::Equations::misses_inverse, crate::proofs::Equations::misses_two))]
fn misses(bindings: &[Binding], exp: &RawExp) -> bool
    ensures { result ≡ misses bindings.now exp.now }
{
    match exp {
        RawExp::Named(name) => !is_given(bindings, name),
        RawExp::Literals(_) | RawExp::Nothing { .. } => false,
        RawExp::Inverse(inside) => misses(bindings, inside.get()),
        RawExp::Two { first, second, .. } => {
            misses(bindings, first.get()) || misses(bindings, second.get())
        }
    }
}

/// Rule 21. Linear in the expression.
fn breaks_given(bindings: &[Binding], statement: &RawStatement) -> bool
    ensures { result ≡ breaks_given bindings.now statement.now }
{
    match statement {
        RawStatement::Let { name, exp } => is_given(bindings, name) || misses(bindings, exp),
        RawStatement::Show(exp) | RawStatement::Function(exp) => misses(bindings, exp),
    }
}

// ---- shapes

fn fitting(operation: Operation, first: Option<Shape>, second: Option<Shape>) -> Option<Shape>
    ensures { result ≡ fitting operation first second }
{
    match (first, second) {
        (Some(first), Some(second)) if fits(operation, first, second) => {
            Some(result_shape(operation, first, second))
        }
        _ => None,
    }
}

fn result_shape(operation: Operation, first: Shape, second: Shape) -> Shape
    ensures { result ≡ result_shape operation first second }
{
    match (operation, first, second) {
        (Operation::Compose, Shape::Pairs { outs, .. }, Shape::Pairs { ins, .. }) => {
            Shape::Pairs { ins, outs }
        }
        (Operation::Apply, Shape::Pairs { outs, .. }, _) => Shape::Points { arity: outs },
        _ => first,
    }
}

fn turned(shape: Option<Shape>) -> Option<Shape>
    ensures { result ≡ turned shape }
{
    match shape {
        Some(Shape::Pairs { ins, outs }) => Some(Shape::Pairs {
            ins: outs,
            outs: ins,
        }),
        _ => None,
    }
}

fn empty_shape(ins: u64, outs: Option<u64>) -> Shape
    ensures { result ≡ empty_shape ins outs }
{
    match outs {
        None => Shape::Points {
            arity: ins as usize,
        },
        Some(outs) => Shape::Pairs {
            ins: ins as usize,
            outs: outs as usize,
        },
    }
}

fn shape_named(bindings: &[Binding], name: &Name) -> Option<Shape>
    ensures { result ≡ option_map shape_of (value_named bindings.now name.now) }
{
    match value_named(bindings, name) {
        None => None,
        Some(value) => Some(value.shape()),
    }
}

/// The shape of the result, where all operands fit. Recurses as deep as operations nest, at most eight.
#[tactic(auto, using(crate::proofs::Equations::kind_inverse, crate::proofs::Equations::kind_two))]
fn kind_of(bindings: &[Binding], exp: &RawExp) -> Option<Shape>
    ensures { result ≡ kind_of bindings.now exp.now }
{
    match exp {
        RawExp::Named(name) => shape_named(bindings, name),
        RawExp::Literals(literals) => Some(literals.shape()),
        RawExp::Nothing { ins, outs } => Some(empty_shape(*ins, *outs)),
        RawExp::Inverse(inside) => turned(kind_of(bindings, inside.get())),
        RawExp::Two {
            operation,
            first,
            second,
        } => fitting(
            *operation,
            kind_of(bindings, first.get()),
            kind_of(bindings, second.get()),
        ),
    }
}

/// Whether literals of unequal shapes stand in one list. Recurses as deep as operations nest, at most eight.
#[tactic(auto, using(crate::proofs::Equations::uneven_inverse, crate::proofs::Equations::uneven_two))]
fn is_uneven(exp: &RawExp) -> bool
    ensures { result ≡ is_uneven exp.now }
{
    match exp {
        RawExp::Named(_) | RawExp::Nothing { .. } => false,
        RawExp::Literals(literals) => literals.is_uneven(),
        RawExp::Inverse(inside) => is_uneven(inside.get()),
        RawExp::Two { first, second, .. } => is_uneven(first.get()) || is_uneven(second.get()),
    }
}

fn is_good(statement: &RawStatement, kind: Option<Shape>) -> bool
    ensures { result ≡ is_good statement.now kind }
{
    match (statement, kind) {
        (_, None) => false,
        (RawStatement::Function(_), Some(Shape::Points { .. })) => false,
        _ => true,
    }
}

pub(crate) fn exp_of(statement: &RawStatement) -> &RawExp
    ensures { result.now ≡ exp_of statement.now }
{
    match statement {
        RawStatement::Let { exp, .. } | RawStatement::Show(exp) | RawStatement::Function(exp) => {
            exp
        }
    }
}

/// Rule 22. Linear in the expression.
fn breaks_kinds(bindings: &[Binding], statement: &RawStatement) -> bool
    ensures { result ≡ breaks_kinds bindings.now statement.now }
{
    let exp = exp_of(statement);
    is_uneven(exp) || !is_good(statement, kind_of(bindings, exp))
}

// ---- literals

/// Rule 23. Recurses as deep as operations nest, at most eight.
#[tactic(auto, using(crate::proofs::Equations::repeats_inverse, crate::proofs::Equations::repeats_two))]
fn breaks_names(alloc: Global, exp: &RawExp) -> Result<bool, NoMemory>
    ensures { IfOk result (λ broken. broken ≡ breaks_names exp.now) }
{
    match exp {
        RawExp::Named(_) | RawExp::Nothing { .. } => Ok(false),
        RawExp::Literals(literals) => literals.breaks_names(alloc),
        RawExp::Inverse(inside) => breaks_names(alloc, inside.get()),
        RawExp::Two { first, second, .. } => {
            Ok(breaks_names(alloc, first.get())? || breaks_names(alloc, second.get())?)
        }
    }
}

/// Rule 24 of an expression. Linear in it; recurses as deep as operations nest, at most eight.
#[tactic(auto, using(crate::proofs::Equations::limits_inverse, crate::proofs::Equations::limits_two))]
fn breaks_limits(alloc: Global, exp: &RawExp) -> Result<bool, NoMemory>
    ensures { IfOk result (λ broken. broken ≡ breaks_limits exp.now) }
{
    match exp {
        RawExp::Named(_) => Ok(false),
        RawExp::Literals(literals) => literals.breaks_limits(alloc),
        RawExp::Nothing { ins, outs } => Ok(*ins > MOST_ARITY || outs.unwrap_or(0) > MOST_ARITY),
        RawExp::Inverse(inside) => breaks_limits(alloc, inside.get()),
        RawExp::Two { first, second, .. } => {
            Ok(breaks_limits(alloc, first.get())? || breaks_limits(alloc, second.get())?)
        }
    }
}

/// The least of rules 21 to 24 that the statement with this number breaks.
pub(crate) fn least_rule(
    alloc: Global,
    bindings: &[Binding],
    number: u32,
    statement: &RawStatement,
) -> Result<Option<u32>, NoMemory>
    ensures { IfOk result (λ rule. rule ≡ least_rule bindings.now number statement.now) }
{
    if breaks_given(bindings, statement) {
        return Ok(Some(21));
    }
    if breaks_kinds(bindings, statement) {
        return Ok(Some(22));
    }
    let exp = exp_of(statement);
    if breaks_names(alloc, exp)? {
        return Ok(Some(23));
    }
    if number > MOST_STATEMENTS || breaks_limits(alloc, exp)? {
        return Ok(Some(24));
    }
    Ok(None)
}
