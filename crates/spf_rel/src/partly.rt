//! A conjunction some of whose outputs are solved for, and the test of the number rule on it.

ghost use Rattle.std.specs.Prelude.{◌≡◌, ◌-◌, ◌^◌, None, [], ◌∷◌, ◌++◌, map, min};
ghost use Rattle.std.specs.List.{flat_map, sum_by};
ghost use Rattle.spf_term.specs.Bounded.{monomials};
ghost use Rattle.spf_term.specs.NumberRule.{excess, numbers};
ghost use Rattle.spf_term.specs.Wide.{IsNarrowed, plain};
ghost use Rattle.spf_rel.specs.Function.{IsTestedPartly};

use crate::rule::{MOST_MONOMIALS, all_narrowed, all_wide_monomials};
use spf_term::{Term, TermFault, WideTerm, monomials};
use sqlite_items::Items;
use std::alloc::Global;

/// The constraints that are left, and the terms of the outputs that are solved for, in their order.
#[derive(Drop)]
pub(crate) struct Partly {
    pub equal: Items<Term>,
    pub least: Items<Term>,
    pub results: Items<Term>,
}

/// How many monomials they have together, nested ones counted, up to the greatest `u64`. Linear in the terms.
fn all_counted(equal: &[WideTerm], least: &[WideTerm], results: &[WideTerm], last: &Term) -> u64
    ensures { result ≡ min (sum_by monomials (map plain equal.now ++ (map plain least.now ++ (map plain results.now ++ last.now ∷ [])))) (2 ^ 64 - 1) }
{
    let rest = all_wide_monomials(equal).saturating_add(all_wide_monomials(least));
    let found = all_wide_monomials(results).saturating_add(monomials(last));
    rest.saturating_add(found)
}

/// All of them with numbers of 64 bits, and the last one, or the first number that is farther from 0 than 2^62. Linear in
/// the terms.
fn narrowed_partly(
    alloc: Global,
    equal: &[WideTerm],
    least: &[WideTerm],
    results: &[WideTerm],
    last: Term,
) -> Result<Partly, TermFault>
    requires { excess last ≡ None }
    ensures { IsNarrowed (flat_map numbers (map plain equal.now ++ (map plain least.now ++ (map plain results.now ++ last ∷ [])))) (record { equal = map plain equal.now; least = map plain least.now; results = map plain results.now ++ last ∷ [] }) result }
{
    match all_narrowed(alloc, equal) {
        Ok(equal) => match all_narrowed(alloc, least) {
            Ok(least) => match all_narrowed(alloc, results) {
                Ok(mut results) => {
                    results.push(last)?;
                    Ok(Partly {
                        equal,
                        least,
                        results,
                    })
                }
                Err(fault) => Err(fault),
            },
            Err(fault) => Err(fault),
        },
        Err(fault) => Err(fault),
    }
}

/// The rest, and the results with one more, if they keep the number rule together. Linear in them.
pub(crate) fn tested_partly(
    alloc: Global,
    equal: &[WideTerm],
    least: &[WideTerm],
    results: &[WideTerm],
    last: Term,
) -> Result<Partly, TermFault>
    requires { excess last ≡ None }
    ensures { IsTestedPartly (record { equal = map plain equal.now; least = map plain least.now; results = map plain results.now ++ last ∷ [] }) result }
{
    let count = all_counted(equal, least, results, &last);
    if count > MOST_MONOMIALS {
        return Err(TermFault::Wide {
            count: i128::from(count),
        });
    }
    narrowed_partly(alloc, equal, least, results, last)
}
