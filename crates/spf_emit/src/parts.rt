//! Writing bytes, numbers, indentation, and the term of a place.

ghost use Rattle.std.specs.Prelude.{◌≡◌, [], ◌+◌, ◌<◌, ◌++◌, codes, decimal, length, IfOk, OnOk};
ghost use Rattle.spf_reltext.specs.Printed.{lead, sign_text};
ghost use Rattle.spf_emit.specs.Text.{cell_text, close, indent, place_text, term_at};

use crate::names::{Names, push_name_at};
use itoa::Buffer;
use spf_base::NoMemory;
use spf_reltext::push_term;
use spf_term::Term;

/// What a body is written with: the names, and its terms.
#[derive(Drop)]
pub(crate) struct Writing<'a> {
    pub names: &'a Names,
    pub terms: &'a [Term],
}

pub(crate) fn push(text: &mut Vec<u8>, part: &[u8]) -> Result<(), NoMemory>
    ensures { OnOk result (text.new.items ≡ text.old.items ++ part.now) }
{
    text.extend_from_slice(part)?;
    Ok(())
}

pub(crate) fn push_number(text: &mut Vec<u8>, number: u64) -> Result<(), NoMemory>
    ensures { OnOk result (text.new.items ≡ text.old.items ++ decimal number) }
{
    push(text, Buffer::new().format(number).as_bytes())
}

/// Writes what stands in front of part `n` of a list.
pub(crate) fn push_between(text: &mut Vec<u8>, between: &[u8], n: usize) -> Result<(), NoMemory>
    ensures { OnOk result (text.new.items ≡ text.old.items ++ lead [] between.now n) }
{
    push(text, if n == 0 { b"" } else { between })
}

/// Writes the sign in front of part `n` of a sum.
pub(crate) fn push_sign(text: &mut Vec<u8>, n: usize, minus: bool) -> Result<(), NoMemory>
    ensures { OnOk result (text.new.items ≡ text.old.items ++ sign_text n minus) }
{
    let sign: &[u8] = match (minus, n == 0) {
        (true, true) => b"-",
        (true, false) => b" - ",
        (false, true) => b"",
        (false, false) => b" + ",
    };
    push(text, sign)
}

/// Writes the indentation of a line of this depth.
pub(crate) fn push_indent(text: &mut Vec<u8>, depth: usize) -> Result<(), NoMemory>
    ensures { OnOk result (text.new.items ≡ text.old.items ++ indent depth) }
{
    for _level in 0..depth {
        push(text, b"  ")?;
    }
    Ok(())
}

/// Writes the line that closes an `if` or a `for` of this depth.
pub(crate) fn push_close(text: &mut Vec<u8>, depth: usize) -> Result<(), NoMemory>
    ensures { OnOk result (text.new.items ≡ text.old.items ++ close depth) }
{
    push_indent(text, depth)?;
    push(text, b"}\n")
}

/// Writes the term of the place with this number, and gives the next number. Linear in the term; recurses as deep as it nests.
pub(crate) fn push_place(
    text: &mut Vec<u8>,
    writing: &Writing,
    at: usize,
) -> Result<usize, NoMemory>
    requires { at < length writing.now.terms.now }
    ensures text { OnOk result (text.new.items ≡ text.old.items ++ place_text writing.now.names.now (term_at writing.now.terms.now at)) }
    ensures next { IfOk result (λ next. next ≡ at + 1) }
{
    push_term(text, writing.names, &writing.terms[at])?;
    Ok(at + 1)
}

/// Writes the element of a data array at the place with this number, and gives the next number.
pub(crate) fn push_cell(
    text: &mut Vec<u8>,
    writing: &Writing,
    at: usize,
    array: u32,
) -> Result<usize, NoMemory>
    requires { at < length writing.now.terms.now }
    ensures text { OnOk result (text.new.items ≡ text.old.items ++ cell_text writing.now.names.now array (term_at writing.now.terms.now at)) }
    ensures next { IfOk result (λ next. next ≡ at + 1) }
{
    push_name_at(text, &writing.names.arrays, array)?;
    push(text, b"[")?;
    let next = push_place(text, writing, at)?;
    push(text, b"]")?;
    Ok(next)
}
