//! Taking a list of steps.

ghost use Rattle.std.specs.Prelude.{◌≡◌, ◌+◌, All, IfOk};
ghost use Rattle.spf_script.specs.Resolved.{IsStepFor, TilesOnce};
ghost use Rattle.spf_plan.specs.Planned.{IsPlanOf};
ghost use Rattle.spf_plan.specs.Taken.{BelongTogether, IsPlanAnswer};

use crate::plan_fault::PlanFault;
use crate::plans::Plan;
use spf_base::NoMemory;
use spf_layers::Layers;
use spf_script::Step;
use spf_space::Shape;
use spf_touch::Touches;
use std::alloc::Global;

/// The number of a step, counted from 1. There is none for a step behind 2^32 others, which is told as want of memory.
fn number_of(index: usize) -> Result<u32, NoMemory>
    ensures { IfOk result (λ number. number ≡ index + 1) }
{
    match u32::try_from(index) {
        Ok(before) if before < u32::MAX => Ok(before + 1),
        _ => Err(NoMemory),
    }
}

/// The plan that the steps make of the source plan, or the first refusal. Each step costs what `Plan::step` says.
pub fn plan(
    alloc: Global,
    layers: &Layers,
    touches: &Touches,
    shape: &Shape,
    steps: &[Step],
) -> Result<Plan, PlanFault>
    requires parts { BelongTogether layers.now touches.now shape.now }
    requires steps { All (IsStepFor shape.now 0) steps.now }
    requires once { TilesOnce steps.now }
    ensures answer { IsPlanAnswer touches.now shape.now steps.now result }
    ensures plan { IfOk result (IsPlanOf touches.now shape.now) }
{
    let mut plan = Plan::source(alloc, layers, touches, shape)?;
    for (index, step) in steps.iter().enumerate() {
        plan.step(alloc, layers, touches, shape, number_of(index)?, step)?;
    }
    Ok(plan)
}
