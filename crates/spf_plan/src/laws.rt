//! What plans are bound to.

ghost use Rattle.std.specs.Prelude.{◌≡◌, ◌⊎◌, List, Result, Err};
ghost use Rattle.spf_touch.specs.declared.touch.Touch.{Touch};
ghost use Rattle.spf_space.specs.declared.shape.Shape.{Shape};
ghost use Rattle.spf_script.specs.declared.resolved.Step.{Step};
ghost use Rattle.spf_plan.specs.Planned.{Planned};
ghost use Rattle.spf_plan.specs.Taken.{IsPlanAnswer};
ghost use Rattle.spf_plan.specs.declared.plan_fault.PlanFault.{PlanFault};
ghost use Rattle.spf_plan.specs.declared.plan_fault.PlanFault.TheVariants.{Memory};

use spf_group::one_order;
use spf_grow::one_growth;
use spf_pack::one_packing;
use spf_seed::one_breadth_first_order;

/// Law: the steps have one answer, but for out of memory.
pub fn one_plan_answer()
    ensures { (touches : List (List Touch)) (shape : Shape) (steps : List Step) (a b : Result Planned PlanFault) →
        IsPlanAnswer touches shape steps a → IsPlanAnswer touches shape steps b → (a ≡ b) ⊎ ((a ≡ Err Memory) ⊎ (b ≡ Err Memory)) }
{
    one_order();
    one_growth();
    one_packing();
    one_breadth_first_order();
}
