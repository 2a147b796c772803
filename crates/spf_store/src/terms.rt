//! Values of index expressions, wherever they read.

ghost use Rattle.std.specs.Prelude.{◌≡◌, ◌+◌, ◌<◌, ◌^◌};
ghost use Rattle.spf_term.specs.Value.{IsSmall, applications, value};

use spf_term::{Env, Reader, Term, Walked, walk};
use std::convert::Infallible;

/// Goes on at each entry.
#[derive(Drop)]
struct Anywhere;

impl Reader for Anywhere {
    type Stop = Infallible;

    ghost use Rattle.std.specs.Prelude.{⊤};

    ghost accepts = { λ before entry after. ⊤ };

    ghost refuses = { λ before entry stop. ⊥ };

    fn entry(&mut self, _site: u32, _table: u32, _place: i64) -> Result<(), Infallible> {
        Ok(())
    }
}

/// The value of a term, of which the first application is site `site`, and the number of the site behind its last. A place
/// outside an index array counts as 0. Linear in the term; recurses as deep as it nests.
pub fn evaluate(env: &Env, variables: &[i64], term: &Term, site: u32) -> Walked
    requires small { IsSmall env.now variables.now term.now }
    requires numbered { site + applications term.now < 2 ^ 32 }
    ensures value { result.value ≡ value env.now variables.now term.now }
    ensures next { result.next ≡ site + applications term.now }
{
    match walk(env, variables, term, site, &mut Anywhere) {
        Ok(walked) => walked,
    }
}

/// The value alone.
pub(crate) fn term_value(env: &Env, variables: &[i64], term: &Term) -> i64
    requires { IsSmall env.now variables.now term.now }
    ensures { result ≡ value env.now variables.now term.now }
{
    evaluate(env, variables, term, 0).value
}
