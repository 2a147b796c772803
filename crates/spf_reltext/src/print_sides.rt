//! Printing constraints: what is positive on the left, and the rest negated on the right.

ghost use Rattle.std.specs.Prelude.{◌≡◌, ◌++◌, codes, OnOk};
ghost use Rattle.spf_reltext.specs.Printed.{amount, constraint_text, constraints_text, is_on, rest_text, side_from, side_text};

use crate::print_parts::{push, push_lead, push_number};
use crate::print_term::{TermNames, push_mono};
use spf_base::NoMemory;
use spf_term::{Mono, Term};

/// A side of a constraint.
#[derive(Clone, Copy)]
pub enum Side {
    Left,
    Right,
}

/// Whether a coefficient or constant is printed on this side.
fn is_on(side: Side, number: i64) -> bool
    ensures { result ≡ is_on side number }
{
    let negative = number < 0;
    let zero = number.unsigned_abs() == 0;
    match side {
        Side::Left => !negative && !zero,
        Side::Right => !(!negative && !zero),
    }
}

fn amount(side: Side, number: i64) -> u64
    ensures { result ≡ amount side number }
{
    if is_on(side, number) {
        number.unsigned_abs()
    } else {
        0
    }
}

/// The constant of a side behind `n` monomials.
fn push_rest(text: &mut Vec<u8>, side: Side, n: usize, constant: i64) -> Result<(), NoMemory>
    ensures { OnOk result (text.new.items ≡ text.old.items ++ rest_text side n constant) }
{
    let amount = amount(side, constant);
    if n != 0 && amount == 0 {
        return Ok(());
    }
    push_lead(text, b"", b" + ", n)?;
    push_number(text, amount)
}

fn push_sum<N: TermNames>(
    text: &mut Vec<u8>,
    names: &N,
    side: Side,
    monos: &[Mono],
    constant: i64,
) -> Result<(), NoMemory>
    ensures { OnOk result (text.new.items ≡ text.old.items ++ side_from (N.naming names.now) side 0 monos.now constant) }
{
    let mut n = 0;
    for mono in monos {
        if is_on(side, mono.coef) {
            push_lead(text, b"", b" + ", n)?;
            push_mono(text, names, mono)?;
            n += 1;
        }
    }
    push_rest(text, side, n, constant)
}

fn push_side<N: TermNames>(
    text: &mut Vec<u8>,
    names: &N,
    side: Side,
    term: &Term,
) -> Result<(), NoMemory>
    ensures { OnOk result (text.new.items ≡ text.old.items ++ side_text (N.naming names.now) side term.now) }
{
    push_sum(text, names, side, term.monos.as_slice(), term.constant)
}

/// A constraint with this sign. Linear in it.
fn push_constraint<N: TermNames>(
    text: &mut Vec<u8>,
    names: &N,
    sign: &[u8],
    term: &Term,
) -> Result<(), NoMemory>
    ensures { OnOk result (text.new.items ≡ text.old.items ++ constraint_text (N.naming names.now) sign.now term.now) }
{
    push_side(text, names, Side::Left, term)?;
    push(text, sign)?;
    push_side(text, names, Side::Right, term)
}

/// Constraints with this sign, the first of them behind `opening`. Linear in them.
pub(crate) fn push_constraints<N: TermNames>(
    text: &mut Vec<u8>,
    names: &N,
    opening: &[u8],
    sign: &[u8],
    terms: &[Term],
) -> Result<(), NoMemory>
    ensures { OnOk result (text.new.items ≡ text.old.items ++ constraints_text (N.naming names.now) opening.now sign.now terms.now) }
{
    for (n, term) in terms.iter().enumerate() {
        push_lead(text, opening, b" and ", n)?;
        push_constraint(text, names, sign, term)?;
    }
    Ok(())
}
