//! Whether a variable occurs in a term.

ghost use Rattle.std.specs.Prelude.{◌≡◌};
ghost use Rattle.spf_term.specs.Solution.{atom_mentions, mentions, some_mention};

use crate::term::{Atom, Mono, Term};

#[cycle(mentions)]
fn atom_mentions(atom: &Atom, var: u32) -> bool
    ensures { result ≡ atom_mentions var atom.now }
{
    match atom {
        Atom::Var(number) => *number == var,
        Atom::Param(_) => false,
        Atom::App { arg, .. } => mentions(arg, var),
    }
}

/// Whether the variable occurs, in an argument too. Linear in the term; recurses as deep as it nests.
#[cycle(mentions)]
#[tactic(auto, using(crate::proofs::Mentioned::mentions_are, crate::proofs::Mentioned::mention_here, crate::proofs::Mentioned::mention_later, crate::proofs::Mentioned::mention_end))]
pub fn mentions(term: &Term, var: u32) -> bool
    ensures { result ≡ mentions var term.now }
{
    for mono in term.monos.as_slice() {
        if atom_mentions(&mono.atom, var) {
            return true;
        }
    }
    false
}

/// Whether the variable occurs in one of the monomials.
#[tactic(auto, using(crate::proofs::Mentioned::mention_here, crate::proofs::Mentioned::mention_later, crate::proofs::Mentioned::mention_end))]
pub(crate) fn some_mention(monos: &[Mono], var: u32) -> bool
    ensures { result ≡ some_mention var monos.now }
{
    for mono in monos {
        if atom_mentions(&mono.atom, var) {
            return true;
        }
    }
    false
}
