//! The commands that the program carries out.

ghost use Rattle.std.specs.Prelude.{◌≡◌, ℕ, ◌≤◌, List, [], length, map, Ok, Err, IfOk, IfErr, IfSome, string_bytes};
ghost use Rattle.spf_io.specs.Stream.{Rose};
ghost use Rattle.spf_top.specs.Words.{AsksFor};
ghost use Rattle.spf_top.specs.declared.words.Asked.{Asked};
ghost use Rattle.spf_top.specs.declared.words.Asked.TheVariants as asked_is;
ghost use Rattle.spf_top.specs.Outcome.{line_of};
ghost use Rattle.spf_top.specs.Report.{AppendsOrFails};
ghost use Rattle.spf_space.specs.declared.shape.LoopShape.{LoopShape};
ghost use Rattle.spf_store.specs.Shaped.{IsShapeOf};
ghost use Rattle.spf_top.specs.Command.{AnswersWords, AnswersInput, HasLoopsOf, IsDoneOrMemory, IsOfBytes, IsQuiet, answers, carries_out};
ghost use Rattle.spf_top.specs.Kept.{IsKept};

use crate::outcome::{Outcome, What, refusal};
use crate::report::report;
use crate::stages::{calculated, finish, kept, layered, measure, planned, resolved, walk};
use crate::words::{Asked, Goal, asked_by};
use spf_access::touched_elements_are_cells;
use spf_calc::one_calculation;
use spf_input::{Bundle, read_bundle};
use spf_io::{Failed, ReadAll, Sink, Source, read_all, write_all};
use spf_plan::one_plan_answer;
use spf_script::one_resolve_answer;
use spf_space::Shape;
use sqlite_items::Items;
use std::alloc::Global;

/// How a run ended without a text: its outcome, and the shape by whose loops the line of the outcome names units.
#[derive(Drop)]
struct Ended {
    outcome: Outcome,
    shape: Shape,
}

/// The outcome, which names no loop. It takes no memory.
fn without_loops(alloc: Global, outcome: Outcome) -> Ended
    ensures outcome { result.outcome ≡ outcome }
{
    Ended {
        outcome,
        shape: Shape::new(0, Items::new(alloc), Items::new(alloc)),
    }
}

/// What is written for a bundle of this shape, or why it is refused. Linear in the visits and in what it writes, and
/// what layers, orders, tests of legality and, for a plan's text, the order of the tiles cost.
fn carry_out(alloc: Global, goal: Goal, bundle: Bundle, shape: &Shape) -> Result<Vec<u8>, Outcome>
    requires kept { IsKept bundle }
    requires shape { IsShapeOf bundle.env bundle.kernel shape.now }
    ensures text { IfOk result (λ text. carries_out goal (bundle, shape.now) (Ok text.items)) }
    ensures refused { IfErr result (λ refusal. carries_out goal (bundle, shape.now) (Err refusal)) }
    ensures of_bytes { IfErr result IsOfBytes }
{
    touched_elements_are_cells();
    let touches = match walk(alloc, &bundle, shape) {
        Ok(touches) => touches,
        Err(refusal) => return Err(refusal),
    };
    let steps = match resolved(alloc, &bundle, shape) {
        Ok(steps) => steps,
        Err(refusal) => return Err(refusal),
    };
    let layers = match layered(alloc, shape, &touches) {
        Ok(layers) => layers,
        Err(refusal) => return Err(refusal),
    };
    let plan = match planned(alloc, shape, &layers, &touches, steps.as_slice()) {
        Ok(plan) => plan,
        Err(refusal) => return Err(refusal),
    };
    match finish(alloc, goal, bundle, shape, &layers, &touches, &plan) {
        Ok(text) => Ok(text),
        Err(refusal) => Err(refusal),
    }
}

/// What is written for the bundle that these bytes are, or why they are refused. Linear in the bytes, and what `carry_out` says.
fn answer_bundle(alloc: Global, goal: Goal, bytes: &[u8]) -> Result<Vec<u8>, Ended>
    requires { length bytes.now ≤ 67108864 }
    ensures text { IfOk result (λ text. answers (asked_is.Bundle goal) bytes.now (Ok text.items)) }
    ensures refused { IfErr result (λ ended. answers (asked_is.Bundle goal) bytes.now (Err ended.outcome)) }
    ensures of_bytes { IfErr result (λ ended. IsOfBytes ended.outcome) }
    ensures named { IfErr result (λ ended. HasLoopsOf bytes.now ended.outcome ended.shape.loops) }
{
    let bundle = match read_bundle(alloc, bytes) {
        Ok(bundle) => bundle,
        Err(fault) => return Err(without_loops(alloc, refusal(fault))),
    };
    kept(&bundle);
    let shape = match measure(alloc, &bundle) {
        Ok(shape) => shape,
        Err(outcome) => return Err(without_loops(alloc, outcome)),
    };
    match carry_out(alloc, goal, bundle, &shape) {
        Ok(text) => Ok(text),
        Err(outcome) => Err(Ended { outcome, shape }),
    }
}

/// What the command writes for these bytes, or why it refuses them.
fn answer_bytes(alloc: Global, asked: Asked, bytes: &[u8]) -> Result<Vec<u8>, Ended>
    requires { length bytes.now ≤ 67108864 }
    ensures text { IfOk result (λ text. answers asked bytes.now (Ok text.items)) }
    ensures refused { IfErr result (λ ended. answers asked bytes.now (Err ended.outcome)) }
    ensures of_bytes { IfErr result (λ ended. IsOfBytes ended.outcome) }
    ensures named { IfErr result (λ ended. HasLoopsOf bytes.now ended.outcome ended.shape.loops) }
{
    match asked {
        Asked::Bundle(goal) => answer_bundle(alloc, goal, bytes),
        Asked::Calc => match calculated(alloc, bytes) {
            Ok(text) => Ok(text),
            Err(outcome) => Err(without_loops(alloc, outcome)),
        },
    }
}

/// All of the command but the line on standard error.
fn answer<S: Source, K: Sink>(alloc: Global, words: &[String], source: &mut S, out: &mut K) -> Ended
    ensures words { AnswersWords (map string_bytes words.now) result.outcome }
    ensures input { IfSome (S.held source.old) (λ bytes. (asked : Asked) → AsksFor (map string_bytes words.now) asked →
        AnswersInput asked bytes (K.written out.old) (K.written out.new) result.outcome) }
    ensures named { IfSome (S.held source.old) (λ bytes. HasLoopsOf bytes result.outcome result.shape.loops) }
    ensures to_the_end { result.outcome ≡ Outcome.Done → IfSome (S.held source.new) (λ rest. rest ≡ []) }
    ensures unread { (word : ℕ) → result.outcome ≡ Outcome.Usage word → source.new ≡ source.old }
    ensures quiet { IsQuiet result.outcome → out.new ≡ out.old }
    ensures read_fault { result.outcome ≡ Outcome.ReadFault → Rose (S.faults source.old) (S.faults source.new) }
    ensures write_fault { result.outcome ≡ Outcome.WriteFault → Rose (K.faults out.old) (K.faults out.new) }
{
    let asked = match asked_by(words) {
        Ok(asked) => asked,
        Err(word) => return without_loops(alloc, Outcome::Usage { word }),
    };
    let bytes = match read_all(alloc, source) {
        Ok(bytes) => bytes,
        Err(ReadAll::Memory) => return without_loops(alloc, Outcome::Memory),
        Err(ReadAll::Fault) => return without_loops(alloc, Outcome::ReadFault),
        Err(ReadAll::TooLong) => {
            let what = What::Bytes;
            let count = 67_108_865;
            return without_loops(alloc, Outcome::Limit { what, count });
        }
    };
    let text = match answer_bytes(alloc, asked, &bytes) {
        Ok(text) => text,
        Err(ended) => return ended,
    };
    match write_all(out, &text) {
        Ok(()) => without_loops(alloc, Outcome::Done),
        Err(Failed) => without_loops(alloc, Outcome::WriteFault),
    }
}

/// Carries out the command that the words ask for: it reads the bundle or calculator text from `source`, writes the command's text on `out` in
/// one piece, and a line for any other outcome than `Done` on `err`. Linear in the bytes, in the visits and in what it writes,
/// beside what the script's steps and, for a plan's text, the order of the tiles cost.
pub fn command<S: Source, K: Sink, E: Sink>(
    alloc: Global,
    words: &[String],
    source: &mut S,
    out: &mut K,
    err: &mut E,
) -> Outcome
    // The words, of which the first refused one is named; then the source isn't read.
    ensures words { AnswersWords (map string_bytes words.now) result }
    ensures unread { (word : ℕ) → result ≡ Outcome.Usage word → source.new ≡ source.old }

    // The headline: what is written for which words and input. At `Done` the input was read to its end.
    ensures input { IfSome (S.held source.old) (λ bytes. (asked : Asked) → AsksFor (map string_bytes words.now) asked →
        AnswersInput asked bytes (K.written out.old) (K.written out.new) result) }
    ensures to_the_end { result ≡ Outcome.Done → IfSome (S.held source.new) (λ rest. rest ≡ []) }
    ensures quiet { IsQuiet result → out.new ≡ out.old }

    // A fault comes only where that device's count rose in this call.
    ensures read_fault { result ≡ Outcome.ReadFault → Rose (S.faults source.old) (S.faults source.new) }
    ensures write_fault { result ≡ Outcome.WriteFault → Rose (K.faults out.old) (K.faults out.new) }

    // The line of the outcome, or a front of it where `err` failed. Loops stand there by their names.
    ensures line { (loops : List LoopShape) × IfSome (S.held source.old) (λ bytes. HasLoopsOf bytes result loops)
        × AppendsOrFails (E.written err.old) (E.faults err.old) (line_of loops result) (E.written err.new) (E.faults err.new) }

    // Nothing but want of memory keeps an accepted bundle from its result.
    ensures complete { (asked : Asked) → AsksFor (map string_bytes words.now) asked → IfSome (S.held source.old) (λ bytes. (text : List ℕ) → answers asked bytes (Ok text)
        → ¬ Rose (S.faults source.old) (S.faults source.new) → ¬ Rose (K.faults out.old) (K.faults out.new) → IsDoneOrMemory result) }
{
    one_resolve_answer();
    one_plan_answer();
    one_calculation();
    let ended = answer(alloc, words, source, out);
    report(err, &ended.outcome, &ended.shape);
    ended.outcome
}
