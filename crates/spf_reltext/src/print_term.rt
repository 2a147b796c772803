//! Printing terms, however their variables, parameters and functions are written.

ghost use Rattle.std.specs.Prelude.{◌≡◌, ◌++◌, OnOk};
ghost use Rattle.spf_reltext.specs.Printed.{Naming, atom_text, mono_text, sum_from, term_text};

use crate::print_parts::{push, push_constant, push_factor, push_sign};
use spf_base::NoMemory;
use spf_term::{Atom, Mono, Term};

/// Who writes the variables, parameters and functions of terms behind a text, each by its number.
pub trait TermNames {
    /// How they are written.
    ghost naming: { Self → Naming };

    fn push_variable(&self, text: &mut Vec<u8>, number: u32) -> Result<(), NoMemory>
        ensures { OnOk result (text.new.items ≡ text.old.items ++ (naming self.now).variable number) };

    fn push_param(&self, text: &mut Vec<u8>, number: u32) -> Result<(), NoMemory>
        ensures { OnOk result (text.new.items ≡ text.old.items ++ (naming self.now).param number) };

    fn push_fun(&self, text: &mut Vec<u8>, number: u32) -> Result<(), NoMemory>
        ensures { OnOk result (text.new.items ≡ text.old.items ++ (naming self.now).fun number) };
}

#[cycle(print_term)]
fn push_atom<N: TermNames>(text: &mut Vec<u8>, names: &N, atom: &Atom) -> Result<(), NoMemory>
    ensures { OnOk result (text.new.items ≡ text.old.items ++ atom_text (N.naming names.now) atom.now) }
{
    match atom {
        Atom::Var(number) => names.push_variable(text, *number),
        Atom::Param(number) => names.push_param(text, *number),
        Atom::App { fun, arg } => {
            names.push_fun(text, *fun)?;
            push(text, b"[")?;
            push_term(text, names, arg)?;
            push(text, b"]")
        }
    }
}

/// A monomial without its sign.
#[cycle(print_term)]
pub(crate) fn push_mono<N: TermNames>(
    text: &mut Vec<u8>,
    names: &N,
    mono: &Mono,
) -> Result<(), NoMemory>
    ensures { OnOk result (text.new.items ≡ text.old.items ++ mono_text (N.naming names.now) mono.now) }
{
    push_factor(text, mono.coef)?;
    push_atom(text, names, &mono.atom)
}

#[cycle(print_term)]
fn push_sum<N: TermNames>(
    text: &mut Vec<u8>,
    names: &N,
    monos: &[Mono],
    constant: i64,
) -> Result<(), NoMemory>
    ensures { OnOk result (text.new.items ≡ text.old.items ++ sum_from (N.naming names.now) 0 monos.now constant) }
{
    for (n, mono) in monos.iter().enumerate() {
        push_sign(text, n, mono.coef < 0)?;
        push_mono(text, names, mono)?;
    }
    push_constant(text, monos.len(), constant)
}

/// Writes a term behind the text: its monomials and then its constant. Linear in it; recurses as deep as it nests.
#[cycle(print_term)]
#[tactic(auto, using(crate::proofs::PrintEquations::term_text_is))]
pub fn push_term<N: TermNames>(text: &mut Vec<u8>, names: &N, term: &Term) -> Result<(), NoMemory>
    ensures { OnOk result (text.new.items ≡ text.old.items ++ term_text (N.naming names.now) term.now) }
{
    push_sum(text, names, term.monos.as_slice(), term.constant)
}
