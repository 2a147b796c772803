//! The results of a calculator text.

ghost use Rattle.std.specs.Prelude.{◌≤◌, length, IfErr, IfOk};
ghost use Rattle.spf_calc.specs.Answer.{IsFault, IsResultOf};

use crate::evaluation::names_of;
use crate::fault::CalcFault;
use crate::raw::RawCalc;
use crate::state::State;
use crate::steps::all_steps;
use spf_lex::{tokens, whole};
use spf_reltext::CalcKind;
use std::alloc::Global;

/// The text of the results, a line for each `show` and `function`, or the first fault: a place without a token, a token that
/// no calculator text has there, or the first statement that breaks a rule. Reading takes about 24 bytes for each token; what a
/// statement takes, the operations and simplifications in it do.
#[tactic(auto, using(crate::proofs::Answering::is_text, crate::proofs::Answering::syntax_fault, crate::proofs::Answering::rule_fault, crate::proofs::Answering::results_of))]
pub fn calculate(alloc: Global, text: &[u8]) -> Result<Vec<u8>, CalcFault>
    requires { length text.now ≤ 67108864 }
    ensures results { IfOk result (λ results. IsResultOf text.now results.items) }
    ensures fault { IfErr result (IsFault text.now) }
{
    let tokens = tokens(alloc, text)?;
    let raw = whole::<CalcKind, RawCalc>(alloc, &tokens)?;
    let statements = raw.statements.as_slice();
    let names = names_of(alloc, statements)?;
    match all_steps(alloc, &names, 1, State::new(alloc), statements) {
        Ok(end) => Ok(end.into_text()),
        Err(fault) => Err(fault),
    }
}
