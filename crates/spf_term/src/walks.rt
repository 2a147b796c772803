//! One walk over terms: their value, and each entry that is read for it.

ghost use Rattle.std.specs.Prelude.{◌≡◌, ℕ, ◌+◌, ◌<◌, ◌^◌, All, IfOk, MatchResult};
ghost use Rattle.spf_base.specs.Wrap.{wrap};
ghost use Rattle.spf_term.specs.Value.{Entry, HasSmallPlace, IsSmall, applications, atom_applications, atom_entries, atom_value, entries, value};
ghost use Rattle.spf_term.specs.Walk.{Walks};

use crate::env::{Env, number_at};
use crate::term::{Atom, Term};
use spf_base::{wadd, wmul};

/// Who is told of each entry that is read, and may stop the walk there.
pub trait Reader {
    type Stop;

    /// The entry is accepted, which leads from the one state to the other.
    ghost accepts: { Self → Entry → Self → Type 0 };

    /// The entry is refused, with this stop.
    ghost refuses: { Self → Entry → Self.Stop → Type 0 };

    fn entry(&mut self, site: u32, table: u32, place: i64) -> Result<(), Self::Stop>
        ensures { MatchResult result (λ _. accepts self.old (record { site = site; table = table; place = place }) self.new) (λ stop. refuses self.old (record { site = site; table = table; place = place }) stop) };
}

/// A value, and the number of the next application.
#[derive(Drop)]
pub struct Walked {
    pub value: i64,
    pub next: u32,
}

/// What a monomial multiplies: an argument is walked before the entry at it is told.
#[cycle(walk)]
fn walk_atom<R: Reader>(
    env: &Env,
    variables: &[i64],
    atom: &Atom,
    site: u32,
    reader: &mut R,
) -> Result<Walked, R::Stop>
    requires small { All HasSmallPlace (atom_entries env.now variables.now site atom.now) }
    requires numbered { site + atom_applications atom.now < 2 ^ 32 }
    ensures walks { Walks R.accepts R.refuses reader.old (atom_entries env.now variables.now site atom.now) result reader.new }
    ensures value { IfOk result (λ walked. walked.value ≡ atom_value env.now variables.now atom.now) }
    ensures next { IfOk result (λ walked. walked.next ≡ site + atom_applications atom.now) }
{
    match atom {
        Atom::Var(number) => Ok(Walked {
            value: number_at(variables, i64::from(*number)),
            next: site,
        }),
        Atom::Param(number) => Ok(Walked {
            value: number_at(env.params.as_slice(), i64::from(*number)),
            next: site,
        }),
        Atom::App { fun, arg } => {
            let walked = walk_term(env, variables, arg, site + 1, reader)?;
            reader.entry(site, *fun, walked.value)?;
            Ok(Walked {
                value: number_at(env.table(*fun), walked.value),
                next: walked.next,
            })
        }
    }
}

/// As `walk`, for any value, which wraps.
#[cycle(walk)]
pub(crate) fn walk_term<R: Reader>(
    env: &Env,
    variables: &[i64],
    term: &Term,
    site: u32,
    reader: &mut R,
) -> Result<Walked, R::Stop>
    requires small { All HasSmallPlace (entries env.now variables.now site term.now) }
    requires numbered { site + applications term.now < 2 ^ 32 }
    ensures walks { Walks R.accepts R.refuses reader.old (entries env.now variables.now site term.now) result reader.new }
    ensures value { IfOk result (λ walked. walked.value ≡ wrap (value env.now variables.now term.now)) }
    ensures next { IfOk result (λ walked. walked.next ≡ site + applications term.now) }
{
    let mut sum = term.constant;
    let mut next = site;
    for mono in term.monos.as_slice() {
        let walked = walk_atom(env, variables, &mono.atom, next, reader)?;
        sum = wadd(sum, wmul(mono.coef, walked.value));
        next = walked.next;
    }
    Ok(Walked { value: sum, next })
}

/// Evaluates the term from the left to the right, and tells of each entry that it reads. Linear in the term; recurses as
/// deep as it nests.
pub fn walk<R: Reader>(
    env: &Env,
    variables: &[i64],
    term: &Term,
    site: u32,
    reader: &mut R,
) -> Result<Walked, R::Stop>
    requires small { IsSmall env.now variables.now term.now }
    requires numbered { site + applications term.now < 2 ^ 32 }
    ensures walks { Walks R.accepts R.refuses reader.old (entries env.now variables.now site term.now) result reader.new }
    ensures value { IfOk result (λ walked. walked.value ≡ value env.now variables.now term.now) }
    ensures next { IfOk result (λ walked. walked.next ≡ site + applications term.now) }
{
    walk_term(env, variables, term, site, reader)
}
