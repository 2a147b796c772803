//! Counting the applications of a term.

ghost use Rattle.std.specs.Prelude.{◌≡◌, ◌<◌, ◌^◌};
ghost use Rattle.spf_term.specs.Value.{applications, atom_applications};

use crate::term::{Atom, Term};

/// The application itself, and those of its argument.
#[cycle(applications)]
fn atom_applications(atom: &Atom) -> u32
    requires { atom_applications atom.now < 2 ^ 32 }
    ensures { result ≡ atom_applications atom.now }
{
    match atom {
        Atom::Var(_) | Atom::Param(_) => 0,
        Atom::App { arg, .. } => 1 + applications(arg),
    }
}

/// How many applications of tables the term has, nested ones counted. Linear in the term; recurses as deep as it nests.
#[cycle(applications)]
#[tactic(auto, using(crate::proofs::Monos::applications_are))]
pub fn applications(term: &Term) -> u32
    requires { applications term.now < 2 ^ 32 }
    ensures { result ≡ applications term.now }
{
    let mut count = 0;
    for mono in term.monos.as_slice() {
        count += atom_applications(&mono.atom);
    }
    count
}
