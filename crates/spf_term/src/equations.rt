//! The equality of a variable and a term, as a constraint: it is solved for the variable again, and stays such an equality
//! when a term comes in place of another variable.

ghost use Rattle.std.specs.Prelude.{◌≡◌, ◌≤◌, ◌<◌, ℕ, Some, None, false, nat_eq};
ghost use Rattle.spf_term.specs.Equation.{IsApart, equation};
ghost use Rattle.spf_term.specs.Normal.{normal};
ghost use Rattle.spf_term.specs.Solution.{mentions, oriented, solution};
ghost use Rattle.spf_term.specs.Substitution.{substituted};
ghost use Rattle.spf_term.specs.declared.term.Term.{Term};

/// Law: a variable's equality with a term is solved for it alone, by the normal form of the term, if that has none of the
/// variables for which it may be solved.
pub fn equations_are_solved()
    ensures solved { (low high var : ℕ) (term : Term) → low ≤ var → var < high → IsApart low high (normal term) → solution low high (equation var term) ≡ Some (record { var = var; by = normal term }) }
    ensures unsolved { (low high var : ℕ) (term : Term) → var < low → IsApart low high (normal term) → solution low high (equation var term) ≡ None }
{}

/// Law: with another term in place of another variable, a variable's equality with a term is that with what becomes of it.
pub fn equations_are_kept()
    ensures { (var other : ℕ) (by term : Term) → nat_eq other var ≡ false → mentions other (normal (substituted var by term)) ≡ false →
        oriented (normal (substituted var by (equation other term))) ≡ equation other (substituted var by term) }
{}

/// Law: a term may be made normal before it comes in place of a variable, and so may the term that has the variable: the
/// normal form is the same.
pub fn substitution_keeps_the_normal_form()
    ensures by { (var : ℕ) (by term : Term) → normal (substituted var (normal by) term) ≡ normal (substituted var by term) }
    ensures whole { (var : ℕ) (by term : Term) → normal (substituted var by (normal term)) ≡ normal (substituted var by term) }
{}
