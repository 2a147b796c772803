//! Terms of one atom, and the iteration at a position.

ghost use Rattle.std.specs.Prelude.{◌≡◌, IfOk};
ghost use Rattle.spf_exec.specs.Composed.{applied, from_lower, is_moved, iteration_by, term_of, variable};

use spf_base::NoMemory;
use spf_perm::Perm;
use spf_term::{Atom, Mono, Term};
use sqlite_items::Items;
use std::alloc::Global;

fn term_of(alloc: Global, atom: Atom) -> Result<Term, NoMemory>
    ensures { IfOk result (λ made. made ≡ term_of atom) }
{
    let mut monos = Items::new(alloc);
    monos.push(Mono { coef: 1, atom })?;
    Ok(Term { monos, constant: 0 })
}

/// The variable of this number.
pub(crate) fn variable(alloc: Global, number: u32) -> Result<Term, NoMemory>
    ensures { IfOk result (λ made. made ≡ variable number) }
{
    term_of(alloc, Atom::Var(number))
}

/// The function of this number at the argument.
pub(crate) fn applied(alloc: Global, fun: u32, arg: Term) -> Result<Term, NoMemory>
    ensures { IfOk result (λ made. made ≡ applied fun arg) }
{
    term_of(alloc, Atom::App { fun, arg })
}

/// The position and the lower bound. Linear in the bound.
fn from_lower(alloc: Global, lower: &Term) -> Result<Term, NoMemory>
    ensures { IfOk result (λ made. made ≡ from_lower lower.now) }
{
    let lower = Term::copy(alloc, lower)?;
    let constant = lower.constant;
    let mut monos = Items::new(alloc);
    monos.push(Mono {
        coef: 1,
        atom: Atom::Var(0),
    })?;
    monos.append(lower.monos)?;
    Ok(Term { monos, constant })
}

/// Whether there is a permutation of this number.
pub(crate) fn is_moved(moves: &[Option<Perm>], number: usize) -> bool
    ensures { result ≡ is_moved moves.now number }
{
    match moves.get(number) {
        Some(moves) => moves.is_some(),
        None => false,
    }
}

/// The iteration at the position, of a loop that is moved by the function of this number, or that has this lower bound. Linear
/// in the bound.
pub(crate) fn iteration(
    alloc: Global,
    moves: &[Option<Perm>],
    loop_no: usize,
    order: u32,
    lower: &Term,
) -> Result<Term, NoMemory>
    ensures { IfOk result (λ made. made ≡ iteration_by (is_moved moves.now loop_no) order lower.now) }
{
    if is_moved(moves, loop_no) {
        return applied(alloc, order, variable(alloc, 0)?);
    }
    from_lower(alloc, lower)
}
