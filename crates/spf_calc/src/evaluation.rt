//! Names in the order of the text, and values of expressions.

ghost use Rattle.std.specs.Prelude.{◌≡◌, true, false, Some, All, OnOk, IfOk, IfSome, IsSome};
ghost use Rattle.std.specs.Option.{option_map};
ghost use Rattle.spf_reltext.specs.Rules.{shape_of_all};
ghost use Rattle.spf_reltext.specs.Names.{names_of as literal_names_of};
ghost use Rattle.spf_calc.specs.Evaluated.{IsFit, IsOutcome, exp_names, meant, names_of, no_names};
ghost use Rattle.spf_calc.specs.Rules.{breaks_limits, fitting, is_uneven, turned, value_named};
ghost use Rattle.spf_calc.specs.Values.{AreFormed, InverseBecomes, IsFormedValue, MadeBecomes, ResultBecomes, fits, inverted, shape_of};
ghost use Rattle.spf_calc.specs.declared.raw.RawExp.TheVariants as exp_is;

use crate::operating::{empty, inverted, operated};
use crate::raw::{Operation, RawExp, RawStatement};
use crate::rules::{exp_of, value_named};
use crate::value::{Binding, Value, simplified};
use spf_base::{Name, NoMemory};
use spf_reltext::{Literals, RelNames, Shape};
use std::alloc::Global;

/// Puts the names that the expression uses first behind the others. Recurses as deep as operations nest, at most eight.
#[tactic(auto, using(crate::proofs::Equations::names_inverse, crate::proofs::Equations::names_two))]
fn note_exp(alloc: Global, names: &mut RelNames, exp: &RawExp) -> Result<(), NoMemory>
    ensures { OnOk result (names.new ≡ exp_names names.old exp.now) }
{
    match exp {
        RawExp::Named(_) | RawExp::Nothing { .. } => Ok(()),
        RawExp::Literals(literals) => literals.number_names(alloc, names),
        RawExp::Inverse(inside) => note_exp(alloc, names, inside.get()),
        RawExp::Two { first, second, .. } => {
            note_exp(alloc, names, first.get())?;
            note_exp(alloc, names, second.get())
        }
    }
}

/// The names of the parameters and functions of all statements.
pub(crate) fn names_of(alloc: Global, statements: &[RawStatement]) -> Result<RelNames, NoMemory>
    ensures { IfOk result (λ names. names ≡ names_of no_names statements.now) }
{
    let mut names = RelNames::new(alloc);
    for statement in statements {
        note_exp(alloc, &mut names, exp_of(statement))?;
    }
    Ok(names)
}

/// The set or relation that literals mean, which have one shape and break no limit.
#[tactic(auto, using(crate::proofs::Operands::points_shape, crate::proofs::Operands::pairs_shape))]
fn meant(alloc: Global, names: &RelNames, literals: &Literals) -> Result<Value, NoMemory>
    requires even { is_uneven (exp_is.Literals literals.now) ≡ false }
    requires limits { breaks_limits (exp_is.Literals literals.now) ≡ false }
    ensures means { IfOk result (λ value. value ≡ meant names.now (shape_of_all literals.now.list) literals.now.list) }
    ensures shape { IfOk result (λ value. shape_of value ≡ shape_of_all literals.now.list) }
    ensures formed { IfOk result IsFormedValue }
{
    match literals.shape() {
        Shape::Points { .. } => Ok(Value::Points(literals.to_set(alloc, names)?)),
        Shape::Pairs { .. } => Ok(Value::Pairs(literals.to_rel(alloc, names)?)),
    }
}

/// The value of a name simplified, or `None` where it is too wide.
#[tactic(auto, using(crate::proofs::Operands::formed_named, crate::proofs::Operands::named_has))]
fn named(alloc: Global, bindings: &[Binding], name: &Name) -> Result<Option<Value>, NoMemory>
    requires given { IsSome (option_map shape_of (value_named bindings.now name.now)) }
    requires bindings { AreFormed bindings.now }
    ensures becomes { IfOk result (λ outcome. MadeBecomes (value_named bindings.now name.now) outcome) }
    ensures shape { IfOk result (λ outcome. IfSome outcome (λ value. Some (shape_of value) ≡ option_map shape_of (value_named bindings.now name.now))) }
    ensures formed { IfOk result (λ outcome. IfSome outcome IsFormedValue) }
{
    match value_named(bindings, name) {
        None => unreachable!(),
        Some(value) => simplified(alloc, value),
    }
}

/// What an operand's inverse becomes: `None` where it or the operand is too wide.
fn inverse_of(alloc: Global, operand: &Option<Value>) -> Result<Option<Value>, NoMemory>
    requires pairs { IfSome operand.now (λ value. IsSome (inverted value)) }
    requires formed { IfSome operand.now IsFormedValue }
    ensures becomes { IfOk result (InverseBecomes operand.now) }
    ensures shape { IfOk result (λ outcome. IfSome outcome (λ made. Some (shape_of made) ≡ turned (option_map shape_of operand.now))) }
    ensures formed { IfOk result (λ outcome. IfSome outcome IsFormedValue) }
{
    match operand {
        None => Ok(None),
        Some(value) => inverted(alloc, value),
    }
}

/// What an operation's result becomes: `None` where it or an operand is too wide.
fn result_of(
    alloc: Global,
    operation: Operation,
    first: &Option<Value>,
    second: &Option<Value>,
) -> Result<Option<Value>, NoMemory>
    requires fit { IfSome first.now (λ a. IfSome second.now (λ b. fits operation (shape_of a) (shape_of b) ≡ true)) }
    requires first { IfSome first.now IsFormedValue }
    requires second { IfSome second.now IsFormedValue }
    ensures becomes { IfOk result (ResultBecomes operation first.now second.now) }
    ensures shape { IfOk result (λ outcome. IfSome outcome (λ made. Some (shape_of made) ≡ fitting operation (option_map shape_of first.now) (option_map shape_of second.now))) }
    ensures formed { IfOk result (λ outcome. IfSome outcome IsFormedValue) }
{
    match (first, second) {
        (Some(first), Some(second)) => operated(alloc, operation, first, second),
        _ => Ok(None),
    }
}

/// The value of an expression, or `None` where a result on the way is too wide. Recurses as deep as operations nest, at most
/// eight.
pub(crate) fn evaluate(
    alloc: Global,
    names: &RelNames,
    bindings: &[Binding],
    exp: &RawExp,
) -> Result<Option<Value>, NoMemory>
    requires fit { IsFit bindings.now exp.now }
    requires bindings { AreFormed bindings.now }
    ensures { IfOk result (IsOutcome names.now bindings.now exp.now) }
{
    match exp {
        RawExp::Named(name) => named(alloc, bindings, name),
        RawExp::Literals(literals) => simplified(alloc, &meant(alloc, names, literals)?),
        RawExp::Nothing { ins, outs } => simplified(alloc, &empty(alloc, *ins, *outs)?),
        RawExp::Inverse(inside) => {
            let operand = evaluate(alloc, names, bindings, inside.get())?;
            inverse_of(alloc, &operand)
        }
        RawExp::Two {
            operation,
            first,
            second,
        } => {
            let first = evaluate(alloc, names, bindings, first.get())?;
            let second = evaluate(alloc, names, bindings, second.get())?;
            result_of(alloc, *operation, &first, &second)
        }
    }
}
