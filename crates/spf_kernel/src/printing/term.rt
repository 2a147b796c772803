//! Printing index expressions.

ghost use Rattle.std.specs.Prelude.{ℕ, ◌≡◌, ◌≤◌, ◌<◌, ◌-◌, min, List, ◌∷◌, ◌++◌, length, flat_map, sum, All, OnOk};
ghost use Rattle.spf_kernel.specs.printing.Printed.{atom_words, coefficient_words, further_mono, further_number, limit, mono_words, only_number, pieces, term_words};

use crate::printing::list::{push_lead, push_sign};
use crate::printing::tree_names::{Shown, push_name_at};
use spf_base::NoMemory;
use spf_lex::Words;
use spf_term::{Atom, Mono, Term};

/// Law: the numbers that a constant is printed as are as few within the limit as can
/// be. A constant behind monomials is printed as its pieces, and one that is alone too, unless it is zero.
#[tactic(auto, using(crate::proofs::PrintedConstants::pieces_sum, crate::proofs::PrintedConstants::pieces_within, crate::proofs::PrintedConstants::pieces_fewest, crate::proofs::PrintedConstants::pieces_alone))]
pub fn pieces_are_fewest()
    ensures sum { (n : ℕ) → sum (pieces n) ≡ n }
    ensures within { (n : ℕ) → All (λ piece. piece ≤ limit) (pieces n) }
    ensures fewest { (numbers : List ℕ) → All (λ number. number ≤ limit) numbers → length (pieces (sum numbers)) ≤ length numbers }
    ensures alone { (n : ℕ) → 0 < n → min n limit ∷ pieces (n - limit) ≡ pieces n }
{}

/// The largest number that a bundle may have in an index expression in front of no `*`.
const LIMIT: u64 = 4_194_304;

/// Writes a number behind a sum, as few numbers within the limit. Linear in how many these are.
fn push_further_number(words: &mut Words, minus: bool, size: u64) -> Result<(), NoMemory>
    ensures { OnOk result (words.new ≡ words.old ++ further_number minus size) }
{
    for _piece in 0..size / LIMIT {
        push_sign(words, minus)?;
        words.push_number(LIMIT)?;
    }
    let rest = size % LIMIT;
    if rest == 0 {
        return Ok(());
    }
    push_sign(words, minus)?;
    words.push_number(rest)
}

/// Writes a sum that is a number alone.
fn push_only_number(words: &mut Words, number: i64) -> Result<(), NoMemory>
    ensures { OnOk result (words.new ≡ words.old ++ only_number number) }
{
    let size = number.unsigned_abs();
    push_lead(words, number < 0)?;
    words.push_number(size.min(LIMIT))?;
    push_further_number(words, number < 0, size.saturating_sub(LIMIT))
}

/// Writes the coefficient in front of an atom, without its sign.
fn push_coefficient(words: &mut Words, coefficient: i64) -> Result<(), NoMemory>
    ensures { OnOk result (words.new ≡ words.old ++ coefficient_words coefficient) }
{
    let size = coefficient.unsigned_abs();
    if size == 1 {
        return Ok(());
    }
    words.push_number(size)?;
    words.push(b"*")
}

#[cycle(print_term)]
fn push_atom(words: &mut Words, shown: &Shown, atom: &Atom) -> Result<(), NoMemory>
    ensures { OnOk result (words.new ≡ words.old ++ atom_words shown.now.names.now shown.now.vars.now atom.now) }
{
    match atom {
        Atom::Var(number) => push_name_at(words, shown.vars, *number),
        Atom::Param(number) => push_name_at(words, &shown.names.params, *number),
        Atom::App { fun, arg } => {
            push_name_at(words, &shown.names.tables, *fun)?;
            words.push(b"[")?;
            push_term(words, shown, arg)?;
            words.push(b"]")
        }
    }
}

#[cycle(print_term)]
fn push_mono(words: &mut Words, shown: &Shown, mono: &Mono) -> Result<(), NoMemory>
    ensures { OnOk result (words.new ≡ words.old ++ mono_words shown.now.names.now shown.now.vars.now mono.now) }
{
    push_coefficient(words, mono.coef)?;
    push_atom(words, shown, &mono.atom)
}

#[cycle(print_term)]
fn push_further_monos(words: &mut Words, shown: &Shown, monos: &[Mono]) -> Result<(), NoMemory>
    ensures { OnOk result (words.new ≡ words.old ++ flat_map (further_mono shown.now.names.now shown.now.vars.now) monos.now) }
{
    for mono in monos {
        push_sign(words, mono.coef < 0)?;
        push_mono(words, shown, mono)?;
    }
    Ok(())
}

/// Writes an index expression. Linear in it and in how many numbers its constant is written as.
#[cycle(print_term)]
#[tactic(auto, using(crate::proofs::PrintEquations::term_words_are, crate::proofs::PrintEquations::term_begins, std::proofs::lemmas::Grind::common_steps))]
pub fn push_term(words: &mut Words, shown: &Shown, term: &Term) -> Result<(), NoMemory>
    ensures { OnOk result (words.new ≡ words.old ++ term_words shown.now.names.now shown.now.vars.now term.now) }
{
    match term.monos.as_slice() {
        [] => push_only_number(words, term.constant),
        [first, others @ ..] => {
            push_lead(words, first.coef < 0)?;
            push_mono(words, shown, first)?;
            push_further_monos(words, shown, others)?;
            push_further_number(words, term.constant < 0, term.constant.unsigned_abs())
        }
    }
}
