//! Terms with other numbers for their variables.

ghost use Rattle.std.specs.Prelude.{◌≡◌, ◌<◌, ◌^◌, ◌++◌, All, IfOk, OnOk, map};
ghost use Rattle.spf_rel.specs.Renumbering.{AtomVariables, Variables, moved, renumbered, renumbered_atom};

use spf_base::NoMemory;
use spf_term::{Atom, Mono, Term};
use sqlite_items::Items;
use std::alloc::Global;

/// Where variables go: `first` of them, then `second`, then the others, each block to the numbers from its new start on.
#[derive(Clone, Copy)]
pub(crate) struct Blocks {
    pub first: u32,
    pub second: u32,
    pub to_first: u32,
    pub to_second: u32,
    pub to_others: u32,
}

/// The new number of a variable.
fn moved(blocks: &Blocks, number: u32) -> u32
    requires { moved blocks.now number < 2 ^ 32 }
    ensures { result ≡ moved blocks.now number }
{
    if number < blocks.first {
        return blocks.to_first + number;
    }
    let after = number - blocks.first;
    if after < blocks.second {
        blocks.to_second + after
    } else {
        blocks.to_others + (after - blocks.second)
    }
}

#[cycle(renumbered)]
pub(crate) fn renumbered_atom(alloc: Global, blocks: &Blocks, atom: &Atom) -> Result<Atom, NoMemory>
    requires { AtomVariables (λ number. moved blocks.now number < 2 ^ 32) atom.now }
    ensures { IfOk result (λ made. made ≡ renumbered_atom (moved blocks.now) atom.now) }
{
    match atom {
        Atom::Var(number) => Ok(Atom::Var(moved(blocks, *number))),
        Atom::Param(number) => Ok(Atom::Param(*number)),
        Atom::App { fun, arg } => Ok(Atom::App {
            fun: *fun,
            arg: renumbered(alloc, blocks, arg)?,
        }),
    }
}

/// The term with new numbers for its variables. Linear in the term; recurses as deep as it nests.
#[cycle(renumbered)]
fn renumbered(alloc: Global, blocks: &Blocks, term: &Term) -> Result<Term, NoMemory>
    requires { Variables (λ number. moved blocks.now number < 2 ^ 32) term.now }
    ensures { IfOk result (λ made. made ≡ renumbered (moved blocks.now) term.now) }
{
    let mut monos = Items::new(alloc);
    for mono in term.monos.as_slice() {
        let atom = renumbered_atom(alloc, blocks, &mono.atom)?;
        monos.push(Mono {
            coef: mono.coef,
            atom,
        })?;
    }
    Ok(Term {
        monos,
        constant: term.constant,
    })
}

/// Adds the terms, with new numbers for their variables. Linear in the terms.
pub(crate) fn push_renumbered(
    alloc: Global,
    blocks: Blocks,
    terms: &[Term],
    made: &mut Items<Term>,
) -> Result<(), NoMemory>
    requires { All (Variables (λ number. moved blocks number < 2 ^ 32)) terms.now }
    ensures { OnOk result (made.new ≡ made.old ++ map (renumbered (moved blocks)) terms.now) }
{
    for term in terms {
        made.push(renumbered(alloc, &blocks, term)?)?;
    }
    Ok(())
}

/// The terms, with new numbers for their variables. Linear in the terms.
pub(crate) fn renumbered_terms(
    alloc: Global,
    blocks: Blocks,
    terms: &Items<Term>,
) -> Result<Items<Term>, NoMemory>
    requires { All (Variables (λ number. moved blocks number < 2 ^ 32)) terms.now }
    ensures { IfOk result (λ made. made ≡ map (renumbered (moved blocks)) terms.now) }
{
    let mut made = Items::new(alloc);
    push_renumbered(alloc, blocks, terms.as_slice(), &mut made)?;
    Ok(made)
}
