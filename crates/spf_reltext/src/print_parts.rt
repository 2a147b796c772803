//! Printing texts, numbers, and what stands between the parts of lists and sums.

ghost use Rattle.std.specs.Prelude.{◌≡◌, ◌++◌, codes, decimal, OnOk};
ghost use Rattle.std.specs.Int.{is_negative};
ghost use Rattle.spf_reltext.specs.Printed.{constant_text, factor_text, lead, numbered, sign_text, tuple_text, variables_text};

use itoa::Buffer;
use spf_base::NoMemory;

pub(crate) fn push(text: &mut Vec<u8>, part: &[u8]) -> Result<(), NoMemory>
    ensures { OnOk result (text.new.items ≡ text.old.items ++ part.now) }
{
    text.extend_from_slice(part)?;
    Ok(())
}

pub(crate) fn push_number(text: &mut Vec<u8>, number: u64) -> Result<(), NoMemory>
    ensures { OnOk result (text.new.items ≡ text.old.items ++ decimal number) }
{
    push(text, Buffer::new().format(number).as_bytes())
}

/// What stands in front of part `n` of a list.
pub(crate) fn push_lead(
    text: &mut Vec<u8>,
    opening: &[u8],
    between: &[u8],
    n: usize,
) -> Result<(), NoMemory>
    ensures { OnOk result (text.new.items ≡ text.old.items ++ lead opening.now between.now n) }
{
    push(text, if n == 0 { opening } else { between })
}

/// A variable of this letter.
pub(crate) fn push_numbered(text: &mut Vec<u8>, letter: &[u8], number: u32) -> Result<(), NoMemory>
    ensures { OnOk result (text.new.items ≡ text.old.items ++ numbered letter.now number) }
{
    push(text, letter)?;
    push_number(text, u64::from(number))
}

/// So many variables of this letter. Linear in them.
pub(crate) fn push_variables(
    text: &mut Vec<u8>,
    opening: &[u8],
    letter: &[u8],
    count: u32,
) -> Result<(), NoMemory>
    ensures { OnOk result (text.new.items ≡ text.old.items ++ variables_text opening.now letter.now count) }
{
    for n in 0..count {
        push_lead(text, opening, b", ", n as usize)?;
        push_numbered(text, letter, n)?;
    }
    Ok(())
}

pub(crate) fn push_tuple(text: &mut Vec<u8>, letter: &[u8], count: u32) -> Result<(), NoMemory>
    ensures { OnOk result (text.new.items ≡ text.old.items ++ tuple_text letter.now count) }
{
    push(text, b"[")?;
    push_variables(text, b"", letter, count)?;
    push(text, b"]")
}

/// A coefficient in front of an atom, without its sign.
pub(crate) fn push_factor(text: &mut Vec<u8>, coefficient: i64) -> Result<(), NoMemory>
    ensures { OnOk result (text.new.items ≡ text.old.items ++ factor_text coefficient) }
{
    let size = coefficient.unsigned_abs();
    if size == 1 {
        return Ok(());
    }
    push_number(text, size)?;
    push(text, b" * ")
}

/// The sign in front of part `n` of a sum.
pub(crate) fn push_sign(text: &mut Vec<u8>, n: usize, minus: bool) -> Result<(), NoMemory>
    ensures { OnOk result (text.new.items ≡ text.old.items ++ sign_text n minus) }
{
    if minus {
        push_lead(text, b"-", b" - ", n)
    } else {
        push_lead(text, b"", b" + ", n)
    }
}

/// The constant behind `n` monomials.
pub(crate) fn push_constant(text: &mut Vec<u8>, n: usize, constant: i64) -> Result<(), NoMemory>
    ensures { OnOk result (text.new.items ≡ text.old.items ++ constant_text n constant) }
{
    let size = constant.unsigned_abs();
    if n != 0 && size == 0 {
        return Ok(());
    }
    push_sign(text, n, constant < 0)?;
    push_number(text, size)
}
