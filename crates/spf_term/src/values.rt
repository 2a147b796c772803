//! The value of a term.

ghost use Rattle.spf_term.specs.Value.{IsAnswer, IsSmall};

use crate::env::Env;
use crate::term::Term;
use crate::walks::{Reader, walk};

/// Stops at the first entry that is outside its table.
#[derive(Drop)]
struct Inside<'a> {
    env: &'a Env,
}

/// An entry is outside its table.
#[derive(Drop)]
struct Outside;

impl Reader for Inside<'_> {
    type Stop = Outside;

    ghost use Rattle.std.specs.Prelude.{◌≡◌};
    ghost use Rattle.spf_term.specs.Value.{IsInside};

    ghost accepts = { λ before entry after. IsInside before.env.now entry × (after ≡ before) };

    ghost refuses = { λ before entry stop. ¬ IsInside before.env.now entry };

    fn entry(&mut self, _site: u32, table: u32, place: i64) -> Result<(), Outside> {
        match usize::try_from(place) {
            Ok(place) if place < self.env.table(table).len() => Ok(()),
            _ => Err(Outside),
        }
    }
}

/// The value of a term, if no table is read outside its length. Linear in the term; recurses as deep as it nests.
pub fn value(term: &Term, env: &Env, variables: &[i64]) -> Option<i64>
    requires { IsSmall env.now variables.now term.now }
    ensures { IsAnswer env.now variables.now term.now result }
{
    let mut inside = Inside { env };
    match walk(env, variables, term, 0, &mut inside) {
        Ok(walked) => Some(walked.value),
        Err(Outside) => None,
    }
}
