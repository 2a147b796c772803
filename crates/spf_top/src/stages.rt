//! The stages of a command: each goes on, or answers why the bytes are refused.

ghost use Rattle.std.specs.Prelude.{◌≡◌, ◌<◌, ◌≤◌, ℕ, List, All, length, Ok, Err, IfOk, IfErr};
ghost use Rattle.spf_access.specs.Answer.{IsAccessAnswer};
ghost use Rattle.spf_emit.specs.ComposedText.{composed_text};
ghost use Rattle.spf_input.specs.Answer.{IsBundleAnswer};
ghost use Rattle.spf_input.specs.declared.reading.Bundle.{Bundle};
ghost use Rattle.spf_job.specs.PlanMoves.{moved_of};
ghost use Rattle.spf_plan.specs.Planned.{IsPlanOf};
ghost use Rattle.spf_plan.specs.Taken.{BelongTogether};
ghost use Rattle.spf_script.specs.Resolved.{IsStepFor, TilesOnce};
ghost use Rattle.spf_script.specs.declared.resolved.Step.{Step};
ghost use Rattle.spf_space.specs.Layout.{cells_in, iterations};
ghost use Rattle.spf_store.specs.Shaped.{IsShapeOf};
ghost use Rattle.spf_touch.specs.Frame.{IsTouched};
ghost use Rattle.spf_touch.specs.Repeated.{touches_at};
ghost use Rattle.spf_touch.specs.declared.touch.Touch.{Touch};
ghost use Rattle.spf_top.specs.Command.{IsOfBytes, calculates, finishes, measures, plans, resolves, walks};
ghost use Rattle.spf_top.specs.Kept.{IsKept};
ghost use Rattle.spf_top.specs.PlanText.{IsPlanText};
ghost use Rattle.spf_top.specs.Texts.{text_of};
ghost use Rattle.spf_top.specs.declared.outcome.Outcome.TheVariants.{Memory};

use crate::outcome::{
    Outcome, calc_refusal, plan_refusal, script_refusal, shape_refusal, walk_refusal,
};
use crate::plan_text::plan_text;
use crate::text::arrays_text;
use crate::words::Goal;
use spf_access::{accesses, no_fault_is_in_range};
use spf_base::NoMemory;
use spf_calc::calculate;
use spf_emit::{emit, generated_programs_are_written_composed, generated_programs_have_all_terms};
use spf_exec::generate;
use spf_input::{Bundle, kept_input_is_accepted};
use spf_job::{moved, run_tiles};
use spf_kernel::Kernel;
use spf_layers::Layers;
use spf_plan::{Plan, plan};
use spf_script::{Step, resolve};
use spf_space::Shape;
use spf_store::shape;
use spf_tiles::tile_order;
use spf_touch::Touches;
use sqlite_items::Items;
use std::alloc::Global;

/// What is known of a bundle that was read, which a caller has by calling this. It does nothing else.
pub fn kept(bundle: &Bundle)
    requires { (bytes : List ℕ) × IsBundleAnswer bytes (Ok bundle.now) }
    ensures { IsKept bundle.now }
{
    kept_input_is_accepted();
    let _tree = bundle.kernel.tree();
}

/// The results of a calculator text. It costs what its operations cost.
pub fn calculated(alloc: Global, text: &[u8]) -> Result<Vec<u8>, Outcome>
    requires { length text.now ≤ 67108864 }
    ensures text { IfOk result (λ results. calculates text.now (Ok results.items)) }
    ensures refused { IfErr result (λ refusal. calculates text.now (Err refusal)) }
    ensures of_bytes { IfErr result IsOfBytes }
{
    match calculate(alloc, text) {
        Ok(results) => Ok(results),
        Err(fault) => Err(calc_refusal(fault)),
    }
}

/// The shape of a bundle's loops and arrays, if there are few enough units. Linear in the kernel.
pub fn measure(alloc: Global, bundle: &Bundle) -> Result<Shape, Outcome>
    requires { IsKept bundle.now }
    ensures answer { measures bundle.now result }
    ensures of_bytes { IfErr result IsOfBytes }
{
    match shape(alloc, &bundle.kernel, &bundle.env) {
        Ok(shape) => Ok(shape),
        Err(fault) => Err(shape_refusal(fault)),
    }
}

/// What each iteration touches, if nothing is refused on the walk. Linear in the visits.
pub fn walk(alloc: Global, bundle: &Bundle, shape: &Shape) -> Result<Touches, Outcome>
    requires kept { IsKept bundle.now }
    requires shape { IsShapeOf bundle.now.env bundle.now.kernel shape.now }
    ensures answer { walks (bundle.now, shape.now) result }
    ensures of_bytes { IfErr result IsOfBytes }
{
    match accesses(alloc, &bundle.kernel, &bundle.env, shape) {
        Ok(touches) => Ok(touches),
        Err(fault) => Err(walk_refusal(fault)),
    }
}

/// The steps of the bundle's script, with loops and arrays by their numbers. Linear in the script's names times the loops
/// and arrays.
pub fn resolved(alloc: Global, bundle: &Bundle, shape: &Shape) -> Result<Items<Step>, Outcome>
    ensures answer { (touches : List (List Touch)) → resolves ((bundle.now, shape.now), touches) result }
    ensures fitting { IfOk result (All (IsStepFor shape.now 0)) }
    ensures once { IfOk result TilesOnce }
    ensures of_bytes { IfErr result IsOfBytes }
{
    match resolve(alloc, &bundle.script, shape, 0) {
        Ok(steps) => Ok(steps),
        Err(fault) => Err(script_refusal(fault)),
    }
}

/// The units that touch each element, in groups. Near-linear in the touches of all steps.
pub fn layered(alloc: Global, shape: &Shape, touches: &Touches) -> Result<Layers, Outcome>
    requires lists { length touches.now ≡ iterations shape.now.loops }
    requires inside { (u e : ℕ) → IsTouched (touches_at touches.now u) e → e < cells_in shape.now.arrays }
    ensures layers { IfOk result (λ layers. BelongTogether layers touches.now shape.now) }
    ensures refused { IfErr result (λ refusal. refusal ≡ Memory) }
{
    match Layers::build(alloc, touches, shape) {
        Ok(layers) => Ok(layers),
        Err(NoMemory) => Err(Outcome::Memory),
    }
}

/// The plan that the steps make, if each of them is legal. Near-linear in the touches of all steps of the kernel, for each
/// step of the script.
pub fn planned(
    alloc: Global,
    shape: &Shape,
    layers: &Layers,
    touches: &Touches,
    steps: &[Step],
) -> Result<Plan, Outcome>
    requires parts { BelongTogether layers.now touches.now shape.now }
    requires fitting { All (IsStepFor shape.now 0) steps.now }
    requires once { TilesOnce steps.now }
    ensures answer { (bundle : Bundle) → plans (((bundle, shape.now), touches.now), steps.now) result }
    ensures plan { IfOk result (IsPlanOf touches.now shape.now) }
    ensures of_bytes { IfErr result IsOfBytes }
{
    match plan(alloc, layers, touches, shape, steps) {
        Ok(plan) => Ok(plan),
        Err(fault) => Err(plan_refusal(fault)),
    }
}

/// The text of the plan. Linear in the text, and what the order of the tiles costs.
fn show(
    alloc: Global,
    shape: &Shape,
    layers: &Layers,
    touches: &Touches,
    plan: &Plan,
) -> Result<Vec<u8>, Outcome>
    requires parts { BelongTogether layers.now touches.now shape.now }
    requires plan { IsPlanOf touches.now shape.now plan.now }
    ensures text { IfOk result (λ text. IsPlanText touches.now shape.now plan.now text.items) }
    ensures refused { IfErr result (λ refusal. refusal ≡ Memory) }
{
    let order = match tile_order(alloc, layers, shape, plan.places(), plan.tiles()) {
        Ok(order) => order,
        Err(NoMemory) => return Err(Outcome::Memory),
    };
    match plan_text(alloc, shape, plan, &order) {
        Ok(text) => Ok(text),
        Err(NoMemory) => Err(Outcome::Memory),
    }
}

/// The text of the plan's executor. Linear in the text, with the terms of the kernel and a copy of what the plan has moved.
fn executor_text(
    alloc: Global,
    kernel: &Kernel,
    shape: &Shape,
    plan: &Plan,
) -> Result<Vec<u8>, NoMemory>
    requires { (touches : List (List Touch)) × IsPlanOf touches shape.now plan.now }
    ensures { IfOk result (λ text. text.items ≡ composed_text kernel.now (moved_of plan.now) plan.now.count shape.now.steps) }
{
    generated_programs_have_all_terms();
    generated_programs_are_written_composed();
    let moved = moved(alloc, shape, plan)?;
    let program = generate(alloc, kernel, &moved)?;
    emit(alloc, &program, kernel, plan.tiles(), shape.steps)
}

/// The same, with want of memory as an outcome.
fn write(alloc: Global, kernel: &Kernel, shape: &Shape, plan: &Plan) -> Result<Vec<u8>, Outcome>
    requires { (touches : List (List Touch)) × IsPlanOf touches shape.now plan.now }
    ensures text { IfOk result (λ text. text.items ≡ composed_text kernel.now (moved_of plan.now) plan.now.count shape.now.steps) }
    ensures refused { IfErr result (λ refusal. refusal ≡ Memory) }
{
    match executor_text(alloc, kernel, shape, plan) {
        Ok(text) => Ok(text),
        Err(NoMemory) => Err(Outcome::Memory),
    }
}

/// Runs the job of the plan on a bundle's cells, and gives the text of the arrays. Linear in the visits and the cells, and what
/// `run_tiles` costs.
fn execute(
    alloc: Global,
    mut bundle: Bundle,
    shape: &Shape,
    layers: &Layers,
    touches: &Touches,
    plan: &Plan,
) -> Result<Vec<u8>, Outcome>
    requires kept { IsKept bundle }
    requires shape { IsShapeOf bundle.env bundle.kernel shape.now }
    requires walked { IsAccessAnswer bundle.env bundle.kernel shape.now.steps (Ok touches.now) }
    requires parts { BelongTogether layers.now touches.now shape.now }
    requires plan { IsPlanOf touches.now shape.now plan.now }
    ensures text { IfOk result (λ text. text.items ≡ text_of bundle) }
    ensures refused { IfErr result (λ refusal. refusal ≡ Memory) }
{
    no_fault_is_in_range();
    match run_tiles(
        alloc,
        &bundle.kernel,
        &bundle.env,
        shape,
        touches,
        layers,
        plan,
        &mut bundle.store,
    ) {
        Ok(()) => {}
        Err(NoMemory) => return Err(Outcome::Memory),
    }
    match arrays_text(alloc, &bundle.store) {
        Ok(text) => Ok(text),
        Err(NoMemory) => Err(Outcome::Memory),
    }
}

/// Runs the job of the plan and gives the text of the arrays, or gives the text of the plan, or of its executor.
pub fn finish(
    alloc: Global,
    goal: Goal,
    bundle: Bundle,
    shape: &Shape,
    layers: &Layers,
    touches: &Touches,
    plan: &Plan,
) -> Result<Vec<u8>, Outcome>
    requires kept { IsKept bundle }
    requires shape { IsShapeOf bundle.env bundle.kernel shape.now }
    requires walked { IsAccessAnswer bundle.env bundle.kernel shape.now.steps (Ok touches.now) }
    requires parts { BelongTogether layers.now touches.now shape.now }
    requires plan { IsPlanOf touches.now shape.now plan.now }
    ensures text { IfOk result (λ text. (steps : List Step) → finishes goal ((((bundle, shape.now), touches.now), steps), plan.now) (Ok text.items)) }
    ensures refused { IfErr result (λ refusal. refusal ≡ Memory) }
{
    match goal {
        Goal::Run => execute(alloc, bundle, shape, layers, touches, plan),
        Goal::Plan => show(alloc, shape, layers, touches, plan),
        Goal::Emit => write(alloc, &bundle.kernel, shape, plan),
    }
}
