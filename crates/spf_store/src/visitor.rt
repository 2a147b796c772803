//! What is done on the way through an iteration.

ghost use Rattle.std.specs.Prelude.{◌≡◌, ◌+◌, ◌<◌, ◌^◌, [], ◌∷◌, All, IfOk};
ghost use Rattle.spf_term.specs.Bounded.{IsWithin};
ghost use Rattle.spf_term.specs.Environment.{Environment};
ghost use Rattle.spf_term.specs.Value.{IsSmall, applications, value};
ghost use Rattle.spf_term.specs.Walk.{Walks};
ghost use Rattle.spf_kernel.specs.BodySites.{assign_sites};
ghost use Rattle.spf_store.specs.Event.{Event, Turn, Bound};
ghost use Rattle.spf_store.specs.Small.{IsSmallAssign};
ghost use Rattle.spf_store.specs.Trace.{assign_trace, term_trace};

use spf_kernel::tree::Assign;
use spf_term::{Term, Walked};

/// Who goes along through the trace of an iteration with a state, and may stop at an event.
pub trait Visitor<S> {
    type Stop;

    /// Where terms are evaluated.
    ghost env: { Self → Environment };

    /// What has to hold of the state and an event before it.
    ghost may: { Self → S → Event → Type 0 };

    /// The event is accepted, which leads from the one state to the other.
    ghost accepts: { Self → S → Event → S → Type 0 };

    /// The event is refused, with this stop.
    ghost refuses: { Self → S → Event → Self.Stop → Type 0 };

    /// A turn of a `for` begins.
    fn turn(&self, state: &mut S) -> Result<(), Self::Stop>
        requires { may self.now state.old Turn }
        ensures { Walks (accepts self.now) (refuses self.now) state.old (Turn ∷ []) result state.new };

    /// Evaluates a term, of which the first application is site `site`.
    fn term(
        &self,
        state: &mut S,
        variables: &[i64],
        term: &Term,
        site: u32,
    ) -> Result<Walked, Self::Stop>
        requires small { IsSmall (env self.now) variables.now term.now }
        requires numbered { site + applications term.now < 2 ^ 32 }
        requires may { All (may self.now state.old) (term_trace (env self.now) variables.now site term.now) }
        ensures walks { Walks (accepts self.now) (refuses self.now) state.old (term_trace (env self.now) variables.now site term.now) result state.new }
        ensures value { IfOk result (λ walked. walked.value ≡ value (env self.now) variables.now term.now) }
        ensures next { IfOk result (λ walked. walked.next ≡ site + applications term.now) };

    /// A bound of a `for` has this value.
    fn bound(&self, state: &mut S, site: u32, value: i64) -> Result<(), Self::Stop>
        requires { may self.now state.old (Bound site value) }
        ensures walks { Walks (accepts self.now) (refuses self.now) state.old (Bound site value ∷ []) result state.new }
        ensures within { IfOk result (λ _. IsWithin (2 ^ 22) value) };

    /// Evaluates an assignment, whose target is site `site`, and carries it out. Gives the number of the site behind its last.
    fn assign(
        &self,
        state: &mut S,
        variables: &[i64],
        assign: &Assign,
        site: u32,
    ) -> Result<u32, Self::Stop>
        requires small { IsSmallAssign (env self.now) variables.now assign.now }
        requires numbered { site + assign_sites assign.now < 2 ^ 32 }
        requires may { All (may self.now state.old) (assign_trace (env self.now) variables.now site assign.now) }
        ensures walks { Walks (accepts self.now) (refuses self.now) state.old (assign_trace (env self.now) variables.now site assign.now) result state.new }
        ensures next { IfOk result (λ next. next ≡ site + assign_sites assign.now) };

    /// What may come after an event might come before it.
    ghost stays: { (visitor : Self) (before after : S) (event other : Event) → accepts visitor before event after → may visitor before other → may visitor after other };
}
