//! The line on standard error.

ghost use Rattle.std.specs.Prelude.{◌≡◌, ◌++◌, ◌+ℤ◌, ◌≤ℤ◌, All, codes, decimal, flat_map, neg_ℤ, pos};
ghost use Rattle.std.specs.Fmt.{signed_decimal};
ghost use Rattle.spf_space.specs.Layout.{limit};
ghost use Rattle.spf_top.specs.Outcome.{iteration_text, kind_text, line_of, loop_at, place_text, unit_text, what_text};
ghost use Rattle.spf_top.specs.Report.{AppendsOrFails};

use crate::outcome::{Outcome, What};
use itoa::Buffer;
use spf_base::Place;
use spf_io::{Failed, Sink, write_all};
use spf_lex::TextKind;
use spf_space::{LoopShape, Shape, Unit};

/// Writes pieces one behind another, up to the first fault. Linear in the pieces' bytes.
fn write_pieces<E: Sink>(err: &mut E, pieces: &[&[u8]])
    ensures { AppendsOrFails (E.written err.old) (E.faults err.old) (flat_map (λ piece. piece.now) pieces.now) (E.written err.new) (E.faults err.new) }
{
    for piece in pieces {
        match write_all(err, piece) {
            Ok(()) => {}
            Err(Failed) => return,
        }
    }
}

fn kind_word(kind: TextKind) -> &'static [u8]
    ensures { result.now ≡ kind_text kind }
{
    match kind {
        TextKind::Token => b"token",
        TextKind::Unexpected => b"unexpected",
        TextKind::End => b"end",
    }
}

fn what_word(what: What) -> &'static [u8]
    ensures { result.now ≡ what_text what }
{
    match what {
        What::Bytes => b"bytes",
        What::Units => b"units",
        What::Visits => b"visits",
        What::Tiles => b"tiles",
    }
}

/// The name of a loop, and no byte where there is no such loop.
fn name_of(loops: &[LoopShape], loop_no: u32) -> &[u8]
    ensures { result.now ≡ (loop_at loops.now loop_no).name }
{
    match loops.get(loop_no as usize) {
        Some(each) => each.name.bytes(),
        None => &[],
    }
}

/// The value of a loop's variable at a position.
fn iteration_at(loops: &[LoopShape], loop_no: u32, position: u32) -> i64
    requires { All (λ each. (neg_ℤ (pos limit) ≤ℤ each.lower) × (each.lower ≤ℤ pos limit)) loops.now }
    ensures { result ≡ (loop_at loops.now loop_no).lower +ℤ pos position }
{
    match loops.get(loop_no as usize) {
        Some(each) => each.lower + i64::from(position),
        None => i64::from(position),
    }
}

fn report_usage<E: Sink>(err: &mut E, word: u32)
    ensures { AppendsOrFails (E.written err.old) (E.faults err.old) (codes "usage: word " ++ (decimal word ++ codes "\n")) (E.written err.new) (E.faults err.new) }
{
    let mut buffer = Buffer::new();
    let number = buffer.format(word).as_bytes();
    write_pieces(err, &[b"usage: word ".as_slice(), number, b"\n".as_slice()]);
}

fn report_text<E: Sink>(err: &mut E, place: Place, kind: TextKind)
    ensures { AppendsOrFails (E.written err.old) (E.faults err.old) (codes "text: " ++ (place_text place ++ (codes " " ++ (kind_text kind ++ codes "\n")))) (E.written err.new) (E.faults err.new) }
{
    let (mut line, mut column) = (Buffer::new(), Buffer::new());
    write_pieces(
        err,
        &[
            b"text: ".as_slice(),
            line.format(place.line).as_bytes(),
            b":".as_slice(),
            column.format(place.column).as_bytes(),
            b" ".as_slice(),
            kind_word(kind),
            b"\n".as_slice(),
        ],
    );
}

fn report_kernel<E: Sink>(err: &mut E, place: Place, rule: u32)
    ensures { AppendsOrFails (E.written err.old) (E.faults err.old) (codes "kernel: " ++ (place_text place ++ (codes " rule " ++ (decimal rule ++ codes "\n")))) (E.written err.new) (E.faults err.new) }
{
    let (mut line, mut column, mut number) = (Buffer::new(), Buffer::new(), Buffer::new());
    write_pieces(
        err,
        &[
            b"kernel: ".as_slice(),
            line.format(place.line).as_bytes(),
            b":".as_slice(),
            column.format(place.column).as_bytes(),
            b" rule ".as_slice(),
            number.format(rule).as_bytes(),
            b"\n".as_slice(),
        ],
    );
}

fn report_input<E: Sink>(err: &mut E, name: &[u8], place: u32, rule: u32)
    ensures { AppendsOrFails (E.written err.old) (E.faults err.old) (codes "input: " ++ (name.now ++ (codes " " ++ (decimal place ++ (codes " rule " ++ (decimal rule ++ codes "\n")))))) (E.written err.new) (E.faults err.new) }
{
    let (mut first, mut second) = (Buffer::new(), Buffer::new());
    write_pieces(
        err,
        &[
            b"input: ".as_slice(),
            name,
            b" ".as_slice(),
            first.format(place).as_bytes(),
            b" rule ".as_slice(),
            second.format(rule).as_bytes(),
            b"\n".as_slice(),
        ],
    );
}

fn report_script<E: Sink>(err: &mut E, step: u32, rule: u32)
    ensures { AppendsOrFails (E.written err.old) (E.faults err.old) (codes "script: step " ++ (decimal step ++ (codes " rule " ++ (decimal rule ++ codes "\n")))) (E.written err.new) (E.faults err.new) }
{
    let (mut first, mut second) = (Buffer::new(), Buffer::new());
    write_pieces(
        err,
        &[
            b"script: step ".as_slice(),
            first.format(step).as_bytes(),
            b" rule ".as_slice(),
            second.format(rule).as_bytes(),
            b"\n".as_slice(),
        ],
    );
}

fn report_range<E: Sink>(err: &mut E, name: &[u8], iteration: i64, site: u32, value: i64)
    ensures { AppendsOrFails (E.written err.old) (E.faults err.old) (codes "range: " ++ (iteration_text name.now iteration ++ (codes " site " ++ (decimal site ++ (codes " value " ++ (signed_decimal value ++ codes "\n")))))) (E.written err.new) (E.faults err.new) }
{
    let (mut first, mut second, mut third) = (Buffer::new(), Buffer::new(), Buffer::new());
    write_pieces(
        err,
        &[
            b"range: ".as_slice(),
            name,
            b" ".as_slice(),
            first.format(iteration).as_bytes(),
            b" site ".as_slice(),
            second.format(site).as_bytes(),
            b" value ".as_slice(),
            third.format(value).as_bytes(),
            b"\n".as_slice(),
        ],
    );
}

fn report_illegal<E: Sink>(err: &mut E, step: u32, shape: &Shape, p: &Unit, q: &Unit)
    ensures { AppendsOrFails (E.written err.old) (E.faults err.old)
        (codes "illegal: step " ++ (decimal step ++ (codes " reverses " ++ (unit_text shape.now.loops p.now ++ (codes " and " ++ (unit_text shape.now.loops q.now ++ codes "\n"))))))
        (E.written err.new) (E.faults err.new) }
{
    let loops = shape.loops.as_slice();
    let mut number = Buffer::new();
    let (mut first_step, mut first_iteration) = (Buffer::new(), Buffer::new());
    let (mut second_step, mut second_iteration) = (Buffer::new(), Buffer::new());
    let first = iteration_at(loops, p.loop_no, p.position);
    let second = iteration_at(loops, q.loop_no, q.position);
    write_pieces(
        err,
        &[
            b"illegal: step ".as_slice(),
            number.format(step).as_bytes(),
            b" reverses ".as_slice(),
            first_step.format(p.step).as_bytes(),
            b" ".as_slice(),
            name_of(loops, p.loop_no),
            b" ".as_slice(),
            first_iteration.format(first).as_bytes(),
            b" and ".as_slice(),
            second_step.format(q.step).as_bytes(),
            b" ".as_slice(),
            name_of(loops, q.loop_no),
            b" ".as_slice(),
            second_iteration.format(second).as_bytes(),
            b"\n".as_slice(),
        ],
    );
}

fn report_limit<E: Sink>(err: &mut E, what: What, count: u64)
    ensures { AppendsOrFails (E.written err.old) (E.faults err.old) (codes "limit: " ++ (what_text what ++ (codes " " ++ (decimal count ++ codes "\n")))) (E.written err.new) (E.faults err.new) }
{
    let mut buffer = Buffer::new();
    let count = buffer.format(count).as_bytes();
    write_pieces(
        err,
        &[
            b"limit: ".as_slice(),
            what_word(what),
            b" ".as_slice(),
            count,
            b"\n".as_slice(),
        ],
    );
}

/// Writes the line of an outcome, which `Done` has not; a loop is named as the shape has it. A failing sink changes nothing
/// else.
pub fn report<E: Sink>(err: &mut E, outcome: &Outcome, shape: &Shape)
    ensures { AppendsOrFails (E.written err.old) (E.faults err.old) (line_of shape.now.loops outcome.now) (E.written err.new) (E.faults err.new) }
{
    match outcome {
        Outcome::Done => {}
        Outcome::Memory => write_pieces(err, &[b"memory\n".as_slice()]),
        Outcome::Usage { word } => report_usage(err, *word),
        Outcome::ReadFault => write_pieces(err, &[b"read fault\n".as_slice()]),
        Outcome::WriteFault => write_pieces(err, &[b"write fault\n".as_slice()]),
        Outcome::Text { place, kind } => report_text(err, *place, *kind),
        Outcome::Kernel { place, rule } => report_kernel(err, *place, *rule),
        Outcome::Input { name, place, rule } => report_input(err, name.bytes(), *place, *rule),
        Outcome::Range {
            loop_no,
            iteration,
            site,
            value,
        } => {
            let name = name_of(shape.loops.as_slice(), *loop_no);
            report_range(err, name, *iteration, *site, *value);
        }
        Outcome::Script { step, rule } => report_script(err, *step, *rule),
        Outcome::Illegal { step, p, q } => report_illegal(err, *step, shape, p, q),
        Outcome::Limit { what, count } => report_limit(err, *what, *count),
    }
}
