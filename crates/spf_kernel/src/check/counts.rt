//! How many facts have the roles that the limits are about.

ghost use Rattle.std.specs.Prelude.{◌≡◌, ◌^◌, ℕ, List, [], ◌∷◌, ◌++◌};
ghost use Rattle.spf_kernel.specs.Facts.{Fact, fact_of};
ghost use Rattle.spf_kernel.specs.check.Before.{IsBelow, counts_of};
ghost use Rattle.spf_kernel.specs.Rules.{is_site};

use crate::note::{Note, Says, Sort, Spot};

/// How many facts have the roles that the limits are about.
#[derive(Clone, Copy)]
pub(crate) struct Counts {
    pub params: usize,
    pub tables: usize,
    pub data_arrays: usize,
    pub loops: usize,
    /// Targets behind the last loop's name.
    pub targets: usize,
    /// Factors behind the last target.
    pub factors: usize,
    /// Conditions of the last `if`.
    pub conditions: usize,
    pub sites: usize,
}

/// Whether this is a name with brackets in a loop.
pub(crate) fn is_site(says: Says) -> bool
    ensures { result ≡ is_site says }
{
    match says {
        Says::Used {
            brackets: true,
            spot,
            ..
        } => spot != Spot::Head,
        _ => false,
    }
}

impl Counts {
    #[tactic(auto, unfolding(crate::specs::check::Before::counts_of))]
    pub(crate) fn new() -> Counts
        ensures { result ≡ counts_of [] }
    {
        Counts {
            params: 0,
            tables: 0,
            data_arrays: 0,
            loops: 0,
            targets: 0,
            factors: 0,
            conditions: 0,
            sites: 0,
        }
    }

    /// Counts a fact more.
    #[tactic(auto, using(crate::proofs::Adding::counts_after))]
    pub(crate) fn add(&mut self, note: &Note)
        requires { IsBelow (2 ^ 63) self.old }
        ensures { (texts : List (List ℕ)) (before : List Fact) → self.old ≡ counts_of before → self.new ≡ counts_of (before ++ fact_of texts note.now ∷ []) }
    {
        self.sites += usize::from(is_site(note.says));
        match note.says {
            Says::Declared(Sort::Param) => self.params += 1,
            Says::Declared(Sort::Index) => self.tables += 1,
            Says::Declared(Sort::Data) => self.data_arrays += 1,
            Says::Declared(Sort::Loop) => {
                self.loops += 1;
                self.targets = 0;
            }
            Says::Used {
                spot: Spot::Target,
                ..
            } => {
                self.targets += 1;
                self.factors = 0;
            }
            Says::Factor => self.factors += 1,
            Says::Guard => self.conditions = 0,
            Says::Condition => self.conditions += 1,
            Says::Used { .. } | Says::Variable | Says::Large | Says::Excess => {}
        }
    }
}
