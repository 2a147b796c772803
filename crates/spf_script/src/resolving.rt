//! Resolving a script: its rules are tested, and its names become numbers.

ghost use Rattle.std.specs.Prelude.{◌≡◌, ◌<◌, ◌⊎◌, ℕ, List, Result, Err, map, position, IfOk, All};
ghost use Rattle.std.specs.Str.{bytes_eq};
ghost use Rattle.spf_space.specs.declared.shape.Shape.{Shape};
ghost use Rattle.spf_script.specs.Resolved.{IsResolveAnswer, IsSeedFor, IsStepFor, TestsRules, TilesOnce, array_number, loop_number, parts_in, resolved, resolved_seed};
ghost use Rattle.spf_script.specs.declared.resolving.ScriptFault.{ScriptFault};
ghost use Rattle.spf_script.specs.declared.resolving.ScriptFault.TheVariants.{Memory};
ghost use Rattle.spf_script.specs.declared.resolved.Step.{Step};
ghost use Rattle.spf_script.specs.declared.step.TextStep.{TextStep};

use crate::resolved::{Seed, Step};
use crate::rules::{is_same, least_rule};
use crate::script::Script;
use crate::step::{TextSeed, TextStep};
use spf_base::{Name, NoMemory};
use spf_space::{ArrayShape, LoopShape, Shape};
use sqlite_items::Items;
use std::alloc::Global;
use thiserror::Error;

/// The greatest number of parts of a tiling.
const MOST_PARTS: u64 = 1024;

/// Why a script isn't resolved, in the order of the variants.
#[derive(Debug, Drop, Error)]
pub enum ScriptFault {
    /// The step, counted from 1, is the first that breaks a rule, and this is the least one that it breaks.
    #[error("rule")]
    Rule { step: u32, rule: u32 },
    /// The script tiles into this many parts.
    #[error("tiles")]
    Tiles { count: u64 },
    #[error("out of memory")]
    Memory,
}

impl From<NoMemory> for ScriptFault {
    ghost use Rattle.std.specs.Prelude.{◌≡◌};
    ghost use Rattle.spf_script.specs.declared.resolving.ScriptFault.TheVariants.{Memory};

    ghost from_gives = { λ _ fault. fault ≡ Memory };

    fn from(_error: NoMemory) -> ScriptFault {
        ScriptFault::Memory
    }
}

/// The first step that breaks a rule, counted from 1, with the least rule that it breaks.
fn test_rules(steps: &[TextStep], shape: &Shape, plugs: u32) -> Result<(), ScriptFault>
    ensures { TestsRules shape.now plugs steps.now result }
{
    for (place, _) in steps.iter().enumerate() {
        if let Some(rule) = least_rule(steps, place, shape, plugs) {
            return Err(ScriptFault::Rule {
                step: place as u32 + 1,
                rule,
            });
        }
    }
    Ok(())
}

/// The number of parts of the first `tile`.
fn parts_in(steps: &[TextStep]) -> u64
    ensures { result ≡ parts_in steps.now }
{
    for step in steps {
        if let TextStep::Tile { parts, .. } = step {
            return *parts;
        }
    }
    0
}

/// A place as a number of 32 bits. There is none for a place that only more than 2^32 loops or arrays have, which is told
/// as want of memory.
fn number(place: usize) -> Result<u32, NoMemory>
    ensures { IfOk result (λ number. number ≡ place) }
{
    match u32::try_from(place) {
        Ok(number) => Ok(number),
        Err(_) => Err(NoMemory),
    }
}

fn loop_place(loops: &[LoopShape], name: &Name) -> Option<usize>
    ensures { result ≡ position (λ each. bytes_eq each.name name.now) loops.now }
{
    loops.iter().position(|each| is_same(&each.name, name))
}

#[tactic(auto, using(crate::proofs::Places::place_or_len))]
fn loop_number(loops: &[LoopShape], name: &Name) -> Result<u32, NoMemory>
    ensures { IfOk result (λ number. number ≡ loop_number loops.now name.now) }
{
    number(loop_place(loops, name).unwrap_or(loops.len()))
}

fn array_place(arrays: &[ArrayShape], name: &Name) -> Option<usize>
    ensures { result ≡ position (λ array. bytes_eq array.name name.now) arrays.now }
{
    arrays.iter().position(|array| is_same(&array.name, name))
}

#[tactic(auto, using(crate::proofs::Places::place_or_len))]
fn array_number(arrays: &[ArrayShape], name: &Name) -> Result<u32, NoMemory>
    ensures { IfOk result (λ number. number ≡ array_number arrays.now name.now) }
{
    number(array_place(arrays, name).unwrap_or(arrays.len()))
}

fn array_numbers(
    alloc: Global,
    arrays: &[ArrayShape],
    names: &[Name],
) -> Result<Items<u32>, NoMemory>
    ensures { IfOk result (λ numbers. numbers ≡ map (array_number arrays.now) names.now) }
{
    let mut numbers = Items::new(alloc);
    for name in names {
        numbers.push(array_number(arrays, name)?)?;
    }
    Ok(numbers)
}

fn resolved_seed(seed: TextSeed, plugs: u32) -> Seed
    requires { IsSeedFor plugs (resolved_seed seed) }
    ensures { result ≡ resolved_seed seed }
{
    match seed {
        TextSeed::Block => Seed::Block,
        TextSeed::Spread => Seed::Spread,
        TextSeed::Plug(number) => Seed::Plug(number as u32),
    }
}

fn resolved(alloc: Global, step: &TextStep, shape: &Shape, plugs: u32) -> Result<Step, NoMemory>
    requires { IsStepFor shape.now plugs (resolved shape.now step.now) }
    ensures { IfOk result (λ step_for. step_for ≡ resolved shape.now step.now) }
{
    let loops = shape.loops.as_slice();
    let arrays = shape.arrays.as_slice();
    match step {
        TextStep::Cpack { arrays: names, by } => Ok(Step::Cpack {
            arrays: array_numbers(alloc, arrays, names.as_slice())?,
            by: loop_number(loops, by)?,
        }),
        TextStep::LexGroup { of, by } => Ok(Step::LexGroup {
            of: loop_number(loops, of)?,
            by: array_number(arrays, by)?,
        }),
        TextStep::LexSort { of, by } => Ok(Step::LexSort {
            of: loop_number(loops, of)?,
            by: array_number(arrays, by)?,
        }),
        TextStep::Bucket { of, by, size } => Ok(Step::Bucket {
            of: loop_number(loops, of)?,
            by: array_number(arrays, by)?,
            size: *size,
        }),
        TextStep::Tile {
            of,
            step,
            seed,
            parts,
        } => Ok(Step::Tile {
            of: loop_number(loops, of)?,
            step: below(*step, shape.steps),
            seed: resolved_seed(*seed, plugs),
            parts: *parts as u32,
        }),
        TextStep::TilePack { arrays: names } => Ok(Step::TilePack {
            arrays: array_numbers(alloc, arrays, names.as_slice())?,
        }),
    }
}

/// A number below one of 32 bits.
fn below(number: u64, bound: u32) -> u32
    requires { number < bound }
    ensures { result ≡ number }
{
    number as u32
}

fn resolve_steps(
    alloc: Global,
    steps: &[TextStep],
    shape: &Shape,
    plugs: u32,
) -> Result<Items<Step>, NoMemory>
    requires { All (λ (step : TextStep). IsStepFor shape.now plugs (resolved shape.now step)) steps.now }
    ensures { IfOk result (λ made. made ≡ map (resolved shape.now) steps.now) }
{
    let mut made = Items::new(alloc);
    for step in steps {
        made.push(resolved(alloc, step, shape, plugs)?)?;
    }
    Ok(made)
}

/// The steps of a script for a shape and so many partitioners, or the first step that breaks a rule. `Memory` also comes
/// where a number of a loop or an array passes 32 bits. Linear in the script's names times the loops and arrays.
pub fn resolve(
    alloc: Global,
    script: &Script,
    shape: &Shape,
    plugs: u32,
) -> Result<Items<Step>, ScriptFault>
    ensures answer { IsResolveAnswer shape.now plugs script.now result }
    ensures fitting { IfOk result (All (IsStepFor shape.now plugs)) }
    ensures once { IfOk result TilesOnce }
{
    let steps = script.steps();
    test_rules(steps, shape, plugs)?;
    let count = parts_in(steps);
    if count > MOST_PARTS {
        return Err(ScriptFault::Tiles { count });
    }
    Ok(resolve_steps(alloc, steps, shape, plugs)?)
}

/// Law: a script has one answer, but for out of memory.
pub fn one_resolve_answer()
    ensures { (shape : Shape) (plugs : ℕ) (script : List TextStep) (a b : Result (List Step) ScriptFault) →
        IsResolveAnswer shape plugs script a → IsResolveAnswer shape plugs script b → (a ≡ b) ⊎ ((a ≡ Err Memory) ⊎ (b ≡ Err Memory)) }
{}
