//! The text of a program.

ghost use Rattle.std.specs.Prelude.{◌≡◌, ◌≤◌, ◌++◌, length, map, IfOk, OnOk};
ghost use Rattle.spf_emit.specs.Places.{HasTermForEachPlace, loop_places};
ghost use Rattle.spf_emit.specs.Text.{by_number, emit_text, loop_text, loops_text};

use crate::names::{Names, names_of};
use crate::parts::{Writing, push, push_number};
use crate::statement::push_all;
use spf_base::NoMemory;
use spf_exec::{Body, Program};
use spf_kernel::Kernel;
use spf_kernel::tree::Loop;
use spf_term::Term;
use std::alloc::Global;

/// The depth of the lines of a body.
const BODY: usize = 1;

/// Writes a loop with the terms of its body.
fn push_loop(text: &mut Vec<u8>, names: &Names, terms: &[Term], each: &Loop) -> Result<(), NoMemory>
    requires { loop_places each.now ≤ length terms.now }
    ensures { OnOk result (text.new.items ≡ text.old.items ++ loop_text names.now (by_number terms.now) each.now) }
{
    push(text, b"loop ")?;
    push(text, each.name.bytes())?;
    push(text, b"\n")?;
    let writing = Writing { names, terms };
    push_all(text, &writing, BODY, 0, each.items.as_slice())?;
    Ok(())
}

fn push_loops(
    text: &mut Vec<u8>,
    names: &Names,
    bodies: &[Body],
    loops: &[Loop],
) -> Result<(), NoMemory>
    requires { map (λ body. length body.terms) bodies.now ≡ map loop_places loops.now }
    ensures { OnOk result (text.new.items ≡ text.old.items ++ loops_text names.now bodies.now loops.now) }
{
    for (n, each) in loops.iter().enumerate() {
        push_loop(text, names, bodies[n].terms.as_slice(), each)?;
    }
    Ok(())
}

/// The text of the executor of a kernel, for so many tiles and steps. Linear in the text, which it takes memory for, and for
/// the kernel's names. It recurses as deep as parentheses, which a kernel has 8 deep, and then as the program's terms nest: those
/// of a generated one up to 10 deep, a lower bound's 5 brackets within 5 others.
pub fn emit(
    alloc: Global,
    program: &Program,
    kernel: &Kernel,
    tiles: u32,
    steps: u32,
) -> Result<Vec<u8>, NoMemory>
    requires terms { HasTermForEachPlace program.now kernel.now }
    ensures text { IfOk result (λ text. text.items ≡ emit_text program.now kernel.now tiles steps) }
{
    let tree = kernel.tree();
    let names = names_of(alloc, tree)?;
    let mut text = Vec::new(alloc);
    push(&mut text, b"tiles ")?;
    push_number(&mut text, u64::from(tiles))?;
    push(&mut text, b"\nsteps ")?;
    push_number(&mut text, u64::from(steps))?;
    push(&mut text, b"\n")?;
    push_loops(
        &mut text,
        &names,
        program.loops.as_slice(),
        tree.loops.as_slice(),
    )?;
    Ok(text)
}
