//! How large normal forms and substitutions become.

ghost use Rattle.std.specs.Prelude.{◌≡◌, ◌+◌, ◌*◌, ◌≤◌, ◌^◌, ℕ, None};
ghost use Rattle.std.specs.List.{find};
ghost use Rattle.spf_term.specs.Bounded.{IsBounded, monomials};
ghost use Rattle.spf_term.specs.Equation.{difference, equation};
ghost use Rattle.spf_term.specs.Measure.{by_count, factor, measured, size};
ghost use Rattle.spf_term.specs.Normal.{normal};
ghost use Rattle.spf_term.specs.NumberRule.{is_outside, numbers};
ghost use Rattle.spf_term.specs.Substitution.{substituted};
ghost use Rattle.spf_term.specs.declared.term.Term.{Term};

/// Law: a normal form has no more monomials than its term, and its numbers are together no farther from 0.
pub fn normal_forms_are_no_larger()
    ensures count { (term : Term) → monomials (normal term) ≤ monomials term }
    ensures size { (term : Term) → size (normal term) ≤ size term }
    ensures factor { (term : Term) → factor (normal term) ≤ factor term }
{}

/// Law: how large a term becomes when another comes in place of a variable.
pub fn substitutions_are_bounded()
    ensures count { (var : ℕ) (by term : Term) → monomials (substituted var by term) ≤ monomials term + monomials term * monomials by }
    ensures size { (var : ℕ) (by term : Term) → size (substituted var by term) ≤ size term + factor term * size by }
    ensures factor { (var : ℕ) (by term : Term) → factor (substituted var by term) ≤ factor term + factor term * factor by }
{}

/// Law: the equality of a variable and a term has one monomial more than the term.
pub fn equations_are_bounded()
    ensures difference_count { (var : ℕ) (term : Term) → monomials (difference var term) ≤ 1 + monomials term }
    ensures difference_size { (var : ℕ) (term : Term) → size (difference var term) ≤ 1 + size term }
    ensures count { (var : ℕ) (term : Term) → monomials (equation var term) ≤ 1 + monomials term }
    ensures size { (var : ℕ) (term : Term) → size (equation var term) ≤ 1 + size term }
{}

/// Law: where the numbers of a term are together no farther from 0 than 2^62, none of them is; how large the numbers of an
/// index expression of a kernel are together; and that counting monomials is a measure.
pub fn numbers_are_within_the_size()
    ensures count { (term : Term) → measured by_count term ≡ monomials term }
    ensures none { (term : Term) → size term ≤ 2 ^ 62 → find is_outside (numbers term) ≡ None }
    ensures size { (term : Term) → IsBounded term → size term ≤ 2 ^ 34 + 2 ^ 30 }
    ensures factor { (term : Term) → IsBounded term → factor term ≤ 2 ^ 26 }
{}
