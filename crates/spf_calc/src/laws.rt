//! What calculations are bound to.

ghost use Rattle.std.specs.Prelude.{◌≡◌, ◌⊎◌, ℕ, List, Result, Ok, Err};
ghost use Rattle.spf_calc.specs.Answer.{IsCalcAnswer, IsResultOf};
ghost use Rattle.spf_calc.specs.declared.fault.CalcFault.{CalcFault};
ghost use Rattle.spf_calc.specs.declared.fault.CalcFault.TheVariants.{Memory};

use spf_rel::simplification_is_unique;

/// Law: a text that has results has no other answer, but for out of memory.
pub fn one_calculation()
    ensures { (text results : List ℕ) (answer : Result (List ℕ) CalcFault) → IsResultOf text results → IsCalcAnswer text answer → (answer ≡ Ok results) ⊎ (answer ≡ Err Memory) }
{
    simplification_is_unique();
}
