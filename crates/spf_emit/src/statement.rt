//! Writing statements, a line each.

ghost use Rattle.std.specs.Prelude.{ℕ, ◌≡◌, ◌+◌, ◌≤◌, ◌++◌, List, codes, length, IfOk, OnOk};
ghost use Rattle.std.specs.List.{sum_by};
ghost use Rattle.spf_kernel.specs.Signs.{becomes_word};
ghost use Rattle.spf_kernel.specs.printing.Printed.{compare_word};
ghost use Rattle.spf_emit.specs.Places.{assign_places, cond_places, guard_places, item_places, part_places};
ghost use Rattle.spf_emit.specs.Text.{Placed, assign_text, by_number, cond_part, cond_text, guard_text, inner_text, item_text, lines_text, part_text, parts_text, term_at};
ghost use Rattle.spf_emit.specs.declared.names.Names.{Names};

use crate::parts::{Writing, push, push_between, push_cell, push_close, push_indent, push_place};
use crate::value::push_value;
use spf_base::NoMemory;
use spf_kernel::tree::{Assign, Becomes, Compare, Cond, Guard, Item, Part};

fn push_becomes(text: &mut Vec<u8>, sign: Becomes) -> Result<(), NoMemory>
    ensures { OnOk result (text.new.items ≡ text.old.items ++ becomes_word sign) }
{
    match sign {
        Becomes::Put => push(text, b"="),
        Becomes::Add => push(text, b"+="),
    }
}

fn push_compare(text: &mut Vec<u8>, sign: Compare) -> Result<(), NoMemory>
    ensures { OnOk result (text.new.items ≡ text.old.items ++ compare_word sign) }
{
    match sign {
        Compare::Equal => push(text, b"=="),
        Compare::Unequal => push(text, b"!="),
        Compare::Less => push(text, b"<"),
        Compare::AtMost => push(text, b"<="),
        Compare::Greater => push(text, b">"),
        Compare::AtLeast => push(text, b">="),
    }
}

/// A statement, which has lines of its own.
pub(crate) trait Statement {
    /// How many of its places take a term.
    ghost places: { Self → ℕ };
    /// Its lines.
    ghost lines: { Names → Placed → ℕ → ℕ → Self → List ℕ };

    /// Writes its lines, of this depth, where its first place has this number, and gives the number of the place behind it.
    fn push(
        &self,
        text: &mut Vec<u8>,
        writing: &Writing,
        depth: usize,
        at: usize,
    ) -> Result<usize, NoMemory>
        requires { at + places self.now ≤ length writing.now.terms.now }
        ensures text { OnOk result (text.new.items ≡ text.old.items ++ lines writing.now.names.now (by_number writing.now.terms.now) depth at self.now) }
        ensures next { IfOk result (λ next. next ≡ at + places self.now) };
}

/// Writes the statements one behind another, and gives the number of the place behind them.
pub(crate) fn push_all<T: Statement>(
    text: &mut Vec<u8>,
    writing: &Writing,
    depth: usize,
    first: usize,
    statements: &[T],
) -> Result<usize, NoMemory>
    requires { first + sum_by T.places statements.now ≤ length writing.now.terms.now }
    ensures text { OnOk result (text.new.items ≡ text.old.items ++ lines_text T.places (T.lines writing.now.names.now (by_number writing.now.terms.now) depth) first statements.now) }
    ensures next { IfOk result (λ next. next ≡ first + sum_by T.places statements.now) }
{
    let mut at = first;
    for statement in statements {
        at = statement.push(text, writing, depth, at)?;
    }
    Ok(at)
}

impl Statement for Assign {
    ghost places = { assign_places };

    ghost lines = { assign_text };

    fn push(
        &self,
        text: &mut Vec<u8>,
        writing: &Writing,
        depth: usize,
        at: usize,
    ) -> Result<usize, NoMemory> {
        push_indent(text, depth)?;
        let value = push_cell(text, writing, at, self.array)?;
        push(text, b" ")?;
        push_becomes(text, self.sign)?;
        push(text, b" ")?;
        let next = push_value(text, writing, value, &self.value)?;
        push(text, b";\n")?;
        Ok(next)
    }
}

fn push_cond(
    text: &mut Vec<u8>,
    writing: &Writing,
    at: usize,
    cond: &Cond,
) -> Result<usize, NoMemory>
    requires { at + cond_places cond.now ≤ length writing.now.terms.now }
    ensures text { OnOk result (text.new.items ≡ text.old.items ++ cond_text writing.now.names.now (by_number writing.now.terms.now) at cond.now) }
    ensures next { IfOk result (λ next. next ≡ at + cond_places cond.now) }
{
    let right = push_place(text, writing, at)?;
    push(text, b" ")?;
    push_compare(text, cond.sign)?;
    push(text, b" ")?;
    push_place(text, writing, right)
}

fn push_conds(
    text: &mut Vec<u8>,
    writing: &Writing,
    first: usize,
    conds: &[Cond],
) -> Result<usize, NoMemory>
    requires { first + sum_by cond_places conds.now ≤ length writing.now.terms.now }
    ensures text { OnOk result (text.new.items ≡ text.old.items ++ parts_text cond_places (cond_part writing.now.names.now (by_number writing.now.terms.now)) 0 first conds.now) }
    ensures next { IfOk result (λ next. next ≡ first + sum_by cond_places conds.now) }
{
    let mut at = first;
    for (n, cond) in conds.iter().enumerate() {
        push_between(text, b" and ", n)?;
        at = push_cond(text, writing, at, cond)?;
    }
    Ok(at)
}

fn push_guard(
    text: &mut Vec<u8>,
    writing: &Writing,
    depth: usize,
    at: usize,
    guard: &Guard,
) -> Result<usize, NoMemory>
    requires { at + guard_places guard.now ≤ length writing.now.terms.now }
    ensures text { OnOk result (text.new.items ≡ text.old.items ++ guard_text writing.now.names.now (by_number writing.now.terms.now) depth at guard.now) }
    ensures next { IfOk result (λ next. next ≡ at + guard_places guard.now) }
{
    push_indent(text, depth)?;
    push(text, b"if ")?;
    let body = push_conds(text, writing, at, guard.conds.as_slice())?;
    push(text, b" {\n")?;
    let next = push_all(text, writing, depth + 1, body, guard.body.as_slice())?;
    push_close(text, depth)?;
    Ok(next)
}

impl Statement for Part {
    ghost places = { part_places };

    ghost lines = { part_text };

    fn push(
        &self,
        text: &mut Vec<u8>,
        writing: &Writing,
        depth: usize,
        at: usize,
    ) -> Result<usize, NoMemory> {
        match self {
            Part::Assign(assign) => assign.push(text, writing, depth, at),
            Part::Branch(guard) => push_guard(text, writing, depth, at, guard),
        }
    }
}

/// Writes a `for` over these parts.
fn push_inner(
    text: &mut Vec<u8>,
    writing: &Writing,
    depth: usize,
    at: usize,
    parts: &[Part],
) -> Result<usize, NoMemory>
    requires { at + (2 + sum_by part_places parts.now) ≤ length writing.now.terms.now }
    ensures text { OnOk result (text.new.items ≡ text.old.items ++ inner_text writing.now.names.now (by_number writing.now.terms.now) depth at (term_at writing.now.terms.now at) (term_at writing.now.terms.now (at + 1)) parts.now) }
    ensures next { IfOk result (λ next. next ≡ at + (2 + sum_by part_places parts.now)) }
{
    push_indent(text, depth)?;
    push(text, b"for J in ")?;
    let high = push_place(text, writing, at)?;
    push(text, b" .. ")?;
    let body = push_place(text, writing, high)?;
    push(text, b" {\n")?;
    let next = push_all(text, writing, depth + 1, body, parts)?;
    push_close(text, depth)?;
    Ok(next)
}

impl Statement for Item {
    ghost places = { item_places };

    ghost lines = { item_text };

    fn push(
        &self,
        text: &mut Vec<u8>,
        writing: &Writing,
        depth: usize,
        at: usize,
    ) -> Result<usize, NoMemory> {
        match self {
            Item::Assign(assign) => assign.push(text, writing, depth, at),
            Item::Branch(guard) => push_guard(text, writing, depth, at, guard),
            Item::Inner { parts, .. } => push_inner(text, writing, depth, at, parts.as_slice()),
        }
    }
}
