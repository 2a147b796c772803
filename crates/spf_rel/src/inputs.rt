//! Whether a term mentions inputs alone.

ghost use Rattle.std.specs.Prelude.{◌≡◌};
ghost use Rattle.std.specs.List.{list_any};
ghost use Rattle.spf_rel.specs.Function.{atom_mentions_from, mentions_from};

use spf_term::{Atom, Term};

#[cycle(mentions_from)]
fn atom_mentions_from(atom: &Atom, low: u32) -> bool
    ensures { result ≡ atom_mentions_from low atom.now }
{
    match atom {
        Atom::Var(number) => *number >= low,
        Atom::Param(_) => false,
        Atom::App { arg, .. } => mentions_from(arg, low),
    }
}

/// Whether a variable of at least this number occurs, in an argument too. Linear in the term.
#[cycle(mentions_from)]
#[tactic(auto, using(crate::proofs::Mentioning::mentions_are, crate::proofs::Mentioning::mention_here, crate::proofs::Mentioning::mention_later, crate::proofs::Mentioning::mention_end))]
fn mentions_from(term: &Term, low: u32) -> bool
    ensures { result ≡ mentions_from low term.now }
{
    for mono in term.monos.as_slice() {
        if atom_mentions_from(&mono.atom, low) {
            return true;
        }
    }
    false
}

/// Whether one of the terms mentions a variable of at least this number. Linear in the terms.
pub(crate) fn any_mentions_from(terms: &[Term], low: u32) -> bool
    ensures { result ≡ list_any (mentions_from low) terms.now }
{
    for term in terms {
        if mentions_from(term, low) {
            return true;
        }
    }
    false
}
