//! Rules 5 to 11: how large a number is, and how many of a kind there are.

ghost use Rattle.std.specs.Prelude.{◌≡◌, List, ℕ};
ghost use Rattle.spf_kernel.specs.check.Checked.{first_broken};
ghost use Rattle.spf_kernel.specs.check.Before.{counts_of};
ghost use Rattle.spf_kernel.specs.Facts.{Fact, fact_of};
ghost use Rattle.spf_kernel.specs.Rules.{limit_rules};

use crate::check::counts::{Counts, is_site};
use crate::note::{Note, Says, Sort, Spot};

const MOST_PARAMS: usize = 64;

const MOST_ARRAYS: usize = 64;

const MOST_LOOPS: usize = 32;

/// Of a loop.
const MOST_TARGETS: usize = 16;

/// Of a value.
const MOST_FACTORS: usize = 64;

/// Of an `if`.
const MOST_CONDITIONS: usize = 4;

/// Of all loops.
const MOST_SITES: usize = 256;

/// The least of rules 5 to 11 that the note breaks.
#[tactic(auto, unfolding(crate::specs::check::Before::counts_of))]
pub(crate) fn limit_rule(before: &Counts, note: &Note) -> Option<u32>
    ensures { (texts : List (List ℕ)) (facts : List Fact) → before.now ≡ counts_of facts → result ≡ first_broken 5 limit_rules facts (fact_of texts note.now) }
{
    match note.says {
        Says::Declared(Sort::Param) => (before.params >= MOST_PARAMS).then_some(6),
        Says::Declared(Sort::Index | Sort::Data) => {
            let arrays = before.tables.saturating_add(before.data_arrays);
            (arrays >= MOST_ARRAYS).then_some(6)
        }
        Says::Declared(Sort::Loop) => (before.loops >= MOST_LOOPS).then_some(7),
        Says::Used { spot, .. } => {
            if matches!(spot, Spot::Target) && before.targets >= MOST_TARGETS {
                return Some(8);
            }
            (is_site(note.says) && before.sites >= MOST_SITES).then_some(11)
        }
        Says::Large => Some(5),
        Says::Excess => Some(9),
        Says::Factor => (before.factors >= MOST_FACTORS).then_some(9),
        Says::Condition => (before.conditions >= MOST_CONDITIONS).then_some(10),
        Says::Variable | Says::Guard => None,
    }
}
