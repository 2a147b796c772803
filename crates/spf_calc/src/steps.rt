//! Statements one behind another.

ghost use Rattle.std.specs.Prelude.{◌≡◌, ◌≤◌, false, true, None, Some, IfOk};
ghost use Rattle.spf_rel.specs.Meaning.{IsFormedRel};
ghost use Rattle.spf_calc.specs.Evaluated.{IsFit};
ghost use Rattle.spf_calc.specs.Rules.{exp_of, is_good, kind_of};
ghost use Rattle.spf_calc.specs.Statements.{AreSteps, IsStep, Leaves, LeavesFunction, Runs};
ghost use Rattle.spf_calc.specs.Values.{IsFormedValue, shape_of};
ghost use Rattle.spf_calc.specs.declared.value.Value.TheVariants.{Pairs};

use crate::evaluation::evaluate;
use crate::fault::CalcFault;
use crate::printing::{function_text, value_text};
use crate::raw::RawStatement;
use crate::rules::{exp_of, least_rule};
use crate::state::State;
use crate::value::Value;
use spf_base::NoMemory;
use spf_rel::{Rel, as_function};
use spf_reltext::RelNames;
use spf_term::TermFault;
use std::alloc::Global;

/// Shows a relation as terms, or gives `None` where they are too wide.
fn with_function(
    alloc: Global,
    names: &RelNames,
    state: State,
    rel: &Rel,
) -> Result<Option<State>, NoMemory>
    requires { IsFormedRel rel.now }
    ensures { IfOk result (λ next. LeavesFunction names.now state (Pairs rel.now) next) }
{
    match as_function(alloc, rel) {
        Ok(found) => {
            let text = function_text(alloc, names, rel.ins, &found)?;
            Ok(Some(state.with_line(text.as_slice())?))
        }
        Err(TermFault::Wide { .. }) => Ok(None),
        Err(TermFault::Memory) => Err(NoMemory),
    }
}

/// What is behind a statement with this value, or `None` where it is too wide to be shown as terms.
fn leave(
    alloc: Global,
    names: &RelNames,
    state: State,
    statement: &RawStatement,
    value: Value,
) -> Result<Option<State>, NoMemory>
    requires good { is_good statement.now (Some (shape_of value)) ≡ true }
    requires formed { IsFormedValue value }
    ensures { IfOk result (λ next. Leaves names.now state statement.now value next) }
{
    match (statement, value) {
        (RawStatement::Let { name, .. }, value) => Ok(Some(state.with_name(alloc, name, value)?)),
        (RawStatement::Show(_), value) => {
            let text = value_text(alloc, names, &value)?;
            Ok(Some(state.with_line(text.as_slice())?))
        }
        (RawStatement::Function(_), Value::Pairs(rel)) => with_function(alloc, names, state, &rel),
        (RawStatement::Function(_), Value::Points(_set)) => unreachable!(),
    }
}

/// What is behind a statement, or `None` where a result is too wide.
fn run(
    alloc: Global,
    names: &RelNames,
    state: State,
    statement: &RawStatement,
) -> Result<Option<State>, NoMemory>
    requires fit { IsFit state.bindings (exp_of statement.now) }
    requires good { is_good statement.now (kind_of state.bindings (exp_of statement.now)) ≡ true }
    ensures { IfOk result (λ next. Runs names.now state statement.now next) }
{
    match evaluate(alloc, names, state.bindings(), exp_of(statement))? {
        None => Ok(None),
        Some(value) => leave(alloc, names, state, statement, value),
    }
}

/// The statement with this number.
#[tactic(auto, using(crate::proofs::Kept::kept))]
fn step(
    alloc: Global,
    names: &RelNames,
    number: u32,
    state: State,
    statement: &RawStatement,
) -> Result<State, CalcFault>
    ensures step { IsStep names.now number state statement.now result }
    ensures early { IfOk result (λ _. number ≤ 32) }
{
    let broken = least_rule(alloc, state.bindings(), number, statement)?;
    match broken {
        Some(rule) => Err(CalcFault::Rule {
            statement: number,
            rule,
        }),
        None => match run(alloc, names, state, statement)? {
            Some(next) => Ok(next),
            None => Err(CalcFault::Rule {
                statement: number,
                rule: 25,
            }),
        },
    }
}

/// The statements, of which the first has this number. Recurses once for each, at most 33 times: the 33rd breaks a rule.
pub(crate) fn all_steps(
    alloc: Global,
    names: &RelNames,
    number: u32,
    state: State,
    statements: &[RawStatement],
) -> Result<State, CalcFault>
    requires { number ≤ 33 }
    ensures { AreSteps names.now number state statements.now result }
{
    match statements {
        [] => Ok(state),
        [statement, others @ ..] => {
            let next = step(alloc, names, number, state, statement)?;
            all_steps(alloc, names, number + 1, next, others)
        }
    }
}
