//! The value of a term at a point, where tables are extended by 0 outside their length.

ghost use Rattle.std.specs.Prelude.{◌≡◌, ◌+ℤ◌, ◌*ℤ◌, FitsSigned, None};
ghost use Rattle.std.specs.Int.{w128};
ghost use Rattle.spf_term.specs.Bounded.{AreWithin};
ghost use Rattle.spf_term.specs.NumberRule.{AtomKeepsRule, excess};
ghost use Rattle.spf_term.specs.Value.{atom_value, number_at, value};

use spf_term::{Atom, Env, Term, number_at};

/// The number at a place, and 0 outside. Constant time.
fn entry_at(numbers: &[i64], place: i128) -> i64
    ensures { result ≡ number_at numbers.now place }
{
    match usize::try_from(place) {
        Ok(place) if place < numbers.len() => numbers[place],
        _ => 0,
    }
}

fn product(a: i64, b: i64) -> i128
    ensures { result ≡ a *ℤ b }
{
    i128::from(a) * i128::from(b)
}

fn added(sum: i128, coef: i64, number: i64) -> i128
    requires { FitsSigned w128 (sum +ℤ (coef *ℤ number)) }
    ensures { result ≡ sum +ℤ (coef *ℤ number) }
{
    sum + product(coef, number)
}

#[cycle(value)]
fn atom_value(env: &Env, point: &[i64], atom: &Atom) -> i64
    requires small { AreWithin env.now point.now }
    requires keeps { AtomKeepsRule atom.now }
    ensures { result ≡ atom_value env.now point.now atom.now }
{
    match atom {
        Atom::Var(number) => number_at(point, i64::from(*number)),
        Atom::Param(number) => number_at(env.params.as_slice(), i64::from(*number)),
        Atom::App { fun, arg } => entry_at(env.table(*fun), value(env, point, arg)),
    }
}

/// The value of the term. Linear in the term; recurses as deep as it nests.
#[cycle(value)]
#[tactic(auto, using(crate::proofs::Evaluated::begun, crate::proofs::Evaluated::fits, crate::proofs::Evaluated::next, crate::proofs::Evaluated::keeps_in, crate::proofs::Evaluated::summed))]
pub(crate) fn value(env: &Env, point: &[i64], term: &Term) -> i128
    requires small { AreWithin env.now point.now }
    requires keeps { excess term.now ≡ None }
    ensures { result ≡ value env.now point.now term.now }
{
    let mut sum = i128::from(term.constant);
    for mono in term.monos.as_slice() {
        sum = added(sum, mono.coef, atom_value(env, point, &mono.atom));
    }
    sum
}
