//! Terms so small that no value passes 64 bits.

ghost use Rattle.std.specs.Prelude.{ℤ, List};
ghost use Rattle.spf_term.specs.Bounded.{AreWithin, IsBounded};
ghost use Rattle.spf_term.specs.Environment.{Environment};
ghost use Rattle.spf_term.specs.Value.{IsSmall};
ghost use Rattle.spf_term.specs.declared.term.Term.{Term};

/// Law: where an index expression of a kernel reads numbers within 2^22, its value and each place that is read for it are
/// numbers of 64 bits.
pub fn bounded_terms_are_small()
    ensures { (env : Environment) (variables : List ℤ) (term : Term) → AreWithin env variables → IsBounded term → IsSmall env variables term }
{}
