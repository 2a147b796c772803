//! Copies of terms.

ghost use Rattle.std.specs.Prelude.{◌≡◌, IfOk};

use crate::term::{Atom, Mono, Term};
use spf_base::NoMemory;
use sqlite_items::Items;
use std::alloc::Global;

#[cycle(copy)]
pub(crate) fn copied_atom(alloc: Global, atom: &Atom) -> Result<Atom, NoMemory>
    ensures { IfOk result (λ made. made ≡ atom.now) }
{
    match atom {
        Atom::Var(number) => Ok(Atom::Var(*number)),
        Atom::Param(number) => Ok(Atom::Param(*number)),
        Atom::App { fun, arg } => Ok(Atom::App {
            fun: *fun,
            arg: copied(alloc, arg)?,
        }),
    }
}

#[cycle(copy)]
fn copied(alloc: Global, term: &Term) -> Result<Term, NoMemory>
    ensures { IfOk result (λ made. made ≡ term.now) }
{
    let mut monos = Items::new(alloc);
    for mono in term.monos.as_slice() {
        let atom = copied_atom(alloc, &mono.atom)?;
        monos.push(Mono {
            coef: mono.coef,
            atom,
        })?;
    }
    Ok(Term {
        monos,
        constant: term.constant,
    })
}

impl Term {
    /// A copy. Linear in the term; recurses as deep as it nests.
    pub fn copy(alloc: Global, term: &Term) -> Result<Term, NoMemory>
        ensures { IfOk result (λ made. made ≡ term.now) }
    {
        copied(alloc, term)
    }
}
