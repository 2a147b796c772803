//! Rules 10 and 11: the number of steps and the bounds of loops are in their ranges.

ghost use Rattle.std.specs.Prelude.{◌≡◌, pos, [], All, IfOk, codes};
ghost use Rattle.spf_term.specs.Bounded.{AreWithin, IsBounded};
ghost use Rattle.spf_kernel.specs.Bounded.{IsBoundedLoop};
ghost use Rattle.spf_store.specs.Shaped.{outer_value, size};
ghost use Rattle.spf_input.specs.Rules.{bad_bound_of, first, is_from_to, is_index, unless};
ghost use Rattle.spf_input.specs.Tested.{Tests};

use crate::fault::{InputFault, refused};
use spf_kernel::tree::Loop;
use spf_store::outer_value;
use spf_term::{Env, Term};
use std::alloc::Global;

/// The greatest number of steps, and the greatest bound.
const MOST: i64 = 4_194_304;

/// The number of steps, where rule 10 is kept. Linear in its expression.
#[tactic(auto, using(crate::proofs::StepsName::steps_is_name))]
pub(crate) fn test_steps(alloc: Global, env: &Env, steps: &Term) -> Result<u32, InputFault>
    requires within { AreWithin env.now [] }
    requires bounded { IsBounded steps.now }
    ensures tests { Tests 10 (unless (is_from_to (pos 0) (pos 4194304) (outer_value env.now steps.now)) (codes "steps")) result }
    ensures steps { IfOk result (λ count. count ≡ size env.now steps.now) }
{
    let count = outer_value(env, steps);
    if 0 <= count && count <= MOST {
        Ok(count as u32)
    } else {
        Err(refused(alloc, b"steps", 0, 10))
    }
}

/// Whether a number is one that a bound may be.
fn is_index(number: &i64) -> bool
    ensures { result ≡ is_index number.now }
{
    -MOST <= *number && *number <= MOST
}

fn test_bound(alloc: Global, env: &Env, each: &Loop) -> Result<(), InputFault>
    requires within { AreWithin env.now [] }
    requires bounded { IsBoundedLoop each.now }
    ensures { Tests 11 (bad_bound_of env.now each.now) result }
{
    let low = outer_value(env, &each.low);
    let high = outer_value(env, &each.high);
    if is_index(&low) && is_index(&high) {
        Ok(())
    } else {
        Err(refused(alloc, each.name.bytes(), 0, 11))
    }
}

/// Rule 11: the bounds of each loop are in their range. Linear in them.
pub(crate) fn test_bounds(alloc: Global, env: &Env, loops: &[Loop]) -> Result<(), InputFault>
    requires within { AreWithin env.now [] }
    requires bounded { All IsBoundedLoop loops.now }
    ensures { Tests 11 (first (bad_bound_of env.now) loops.now) result }
{
    for each in loops {
        test_bound(alloc, env, each)?;
    }
    Ok(())
}
