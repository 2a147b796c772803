//! Whether a pair of points is in a relation.

ghost use Rattle.std.specs.Prelude.{◌≡◌, ◌↔◌, ◌+◌, ℤ, pos, ◌≤ℤ◌, All, None, true, length, take, drop};
ghost use Rattle.spf_term.specs.Bounded.{AreWithin};
ghost use Rattle.spf_term.specs.NumberRule.{excess};
ghost use Rattle.spf_term.specs.Value.{value};
ghost use Rattle.spf_rel.specs.Meaning.{Holds, MeetsSome, Relates};
ghost use Rattle.spf_rel.specs.Rule.{KeepsRule};

use crate::evaluation::value;
use crate::relation::{Conj, Rel};
use spf_term::{Env, Term};

fn all_zero(env: &Env, point: &[i64], terms: &[Term]) -> bool
    requires small { AreWithin env.now point.now }
    requires keep { All (λ term. excess term ≡ None) terms.now }
    ensures { (result ≡ true) ↔ All (λ term. value env.now point.now term ≡ pos 0) terms.now }
{
    for term in terms {
        if value(env, point, term) != 0 {
            return false;
        }
    }
    true
}

fn none_below_zero(env: &Env, point: &[i64], terms: &[Term]) -> bool
    requires small { AreWithin env.now point.now }
    requires keep { All (λ term. excess term ≡ None) terms.now }
    ensures { (result ≡ true) ↔ All (λ term. pos 0 ≤ℤ value env.now point.now term) terms.now }
{
    for term in terms {
        if value(env, point, term) < 0 {
            return false;
        }
    }
    true
}

fn holds(env: &Env, point: &[i64], conj: &Conj) -> bool
    requires small { AreWithin env.now point.now }
    requires keeps { KeepsRule conj.now }
    ensures { (result ≡ true) ↔ Holds env.now point.now conj.now }
{
    all_zero(env, point, conj.equal.as_slice())
        && none_below_zero(env, point, conj.least.as_slice())
}

fn meets_some(env: &Env, point: &[i64], conjs: &[Conj]) -> bool
    requires small { AreWithin env.now point.now }
    requires inner { All (λ conj. conj.inner ≡ 0) conjs.now }
    requires keep { All KeepsRule conjs.now }
    ensures { (result ≡ true) ↔ MeetsSome env.now point.now conjs.now }
{
    for conj in conjs {
        if holds(env, point, conj) {
            return true;
        }
    }
    false
}

/// Whether the point, the numbers of a pair's input and then of its output, is in the relation. No conjunction has inner
/// variables, so none has to be looked for. Linear in the relation; takes no memory, and recurses as deep as a term nests.
pub fn contains(r: &Rel, point: &[i64], env: &Env) -> bool
    requires count { length point.now ≡ r.now.ins + r.now.outs }
    requires inner { All (λ conj. conj.inner ≡ 0) r.now.conjs }
    requires keep { All KeepsRule r.now.conjs }
    requires small { AreWithin env.now point.now }
    ensures { (result ≡ true) ↔ Relates env.now r.now (take r.now.ins point.now) (drop r.now.ins point.now) }
{
    meets_some(env, point, r.conjs.as_slice())
}
