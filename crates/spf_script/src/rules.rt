//! The nine rules of scripts, each a test of a step where it stands.

ghost use Rattle.std.specs.Prelude.{◌≡◌, ◌==◌, ◌<◌, ◌^◌, [], not, length, nat_lt, count_by};
ghost use Rattle.std.specs.List.{list_all, list_any, position_from};
ghost use Rattle.std.specs.Str.{bytes_eq};
ghost use Rattle.spf_script.specs.Rules.{array_names, differ, is_array, is_before_tile, is_behind_tile, is_empty, is_foreign, is_late, is_loop, is_misnamed, is_repeating, is_tile, is_tilepack, least_rule, length_of, loop_names};

use crate::step::{TextSeed, TextStep};
use spf_base::Name;
use spf_space::{ArrayShape, LoopShape, Shape};
use std::slice;

/// How many steps a script has at most.
const MOST_STEPS: usize = 32;

pub(crate) fn is_same(one: &Name, other: &Name) -> bool
    ensures { result ≡ bytes_eq one.now other.now }
{
    one.bytes() == other.bytes()
}

fn is_loop(loops: &[LoopShape], name: &Name) -> bool
    ensures { result ≡ is_loop loops.now name.now }
{
    loops.iter().any(|each| is_same(&each.name, name))
}

fn is_array(arrays: &[ArrayShape], name: &Name) -> bool
    ensures { result ≡ is_array arrays.now name.now }
{
    arrays.iter().any(|array| is_same(&array.name, name))
}

/// The names in places of loops.
fn loop_names(step: &TextStep) -> &[Name]
    ensures { result.now ≡ loop_names step.now }
{
    match step {
        TextStep::Cpack { by, .. } => slice::from_ref(by),
        TextStep::LexGroup { of, .. } => slice::from_ref(of),
        TextStep::LexSort { of, .. } => slice::from_ref(of),
        TextStep::Bucket { of, .. } => slice::from_ref(of),
        TextStep::Tile { of, .. } => slice::from_ref(of),
        TextStep::TilePack { .. } => &[],
    }
}

/// The names in places of data arrays.
fn array_names(step: &TextStep) -> &[Name]
    ensures { result.now ≡ array_names step.now }
{
    match step {
        TextStep::Cpack { arrays, .. } => arrays.as_slice(),
        TextStep::LexGroup { by, .. } => slice::from_ref(by),
        TextStep::LexSort { by, .. } => slice::from_ref(by),
        TextStep::Bucket { by, .. } => slice::from_ref(by),
        TextStep::Tile { .. } => &[],
        TextStep::TilePack { arrays } => arrays.as_slice(),
    }
}

fn are_loops(loops: &[LoopShape], names: &[Name]) -> bool
    ensures { result ≡ list_all (is_loop loops.now) names.now }
{
    names.iter().all(|name| is_loop(loops, name))
}

fn are_arrays(arrays: &[ArrayShape], names: &[Name]) -> bool
    ensures { result ≡ list_all (is_array arrays.now) names.now }
{
    names.iter().all(|name| is_array(arrays, name))
}

/// Rule 2: a name that isn't one of a loop, or of a data array, in whose place it stands.
fn is_misnamed(shape: &Shape, step: &TextStep) -> bool
    ensures { result ≡ is_misnamed shape.now step.now }
{
    !(are_loops(shape.loops.as_slice(), loop_names(step))
        && are_arrays(shape.arrays.as_slice(), array_names(step)))
}

fn is_twice(names: &[Name], name: &Name) -> bool
    ensures { result ≡ nat_lt 1 (count_by (bytes_eq name.now) names.now) }
{
    names.iter().filter(|other| is_same(name, other)).count() > 1
}

/// Rule 3: an array that stands twice in the list.
fn is_repeating(shape: &Shape, step: &TextStep) -> bool
    ensures { result ≡ is_repeating shape.now step.now }
{
    let names = array_names(step);
    let mut arrays = shape.arrays.as_slice().iter();
    arrays.any(|array| is_twice(names, &array.name))
}

/// How many cells the first array of this name has.
fn length_of(arrays: &[ArrayShape], name: &Name) -> u32
    ensures { result ≡ length_of arrays.now name.now }
{
    for array in arrays {
        if is_same(&array.name, name) {
            return array.length;
        }
    }
    0
}

/// Whether one of the arrays of these names hasn't this length.
fn differ_from(length: u32, arrays: &[ArrayShape], names: &[Name]) -> bool
    ensures { result ≡ list_any (λ name. not (length_of arrays.now name == length)) names.now }
{
    names.iter().any(|name| length_of(arrays, name) != length)
}

/// Whether the arrays of these names have unequal lengths.
fn differ(arrays: &[ArrayShape], names: &[Name]) -> bool
    ensures { result ≡ differ arrays.now names.now }
{
    match names {
        [] => false,
        [first, others @ ..] => differ_from(length_of(arrays, first), arrays, others),
    }
}

/// Rule 5: a bucket size or a number of parts that is 0.
fn is_empty(step: &TextStep) -> bool
    ensures { result ≡ is_empty step.now }
{
    match step {
        TextStep::Bucket { size, .. } => *size == 0,
        TextStep::Tile { parts, .. } => *parts == 0,
        _ => false,
    }
}

/// Rule 6: a step number that isn't below the number of steps.
fn is_late(shape: &Shape, step: &TextStep) -> bool
    ensures { result ≡ is_late shape.now step.now }
{
    match step {
        TextStep::Tile { step, .. } => u64::from(shape.steps) <= *step,
        _ => false,
    }
}

fn is_tile(step: &TextStep) -> bool
    ensures { result ≡ is_tile step.now }
{
    match step {
        TextStep::Tile { .. } => true,
        _ => false,
    }
}

fn is_tilepack(step: &TextStep) -> bool
    ensures { result ≡ is_tilepack step.now }
{
    match step {
        TextStep::TilePack { .. } => true,
        _ => false,
    }
}

fn have_tile(steps: &[TextStep]) -> bool
    ensures { result ≡ list_any is_tile steps.now }
{
    steps.iter().any(|step| is_tile(step))
}

/// Rule 7: a step other than a `tilepack` behind a `tile`.
fn is_behind_tile(steps: &[TextStep], place: usize, step: &TextStep) -> bool
    requires { place < length steps.now }
    ensures { result ≡ is_behind_tile steps.now place step.now }
{
    !is_tilepack(step) && have_tile(&steps[..place])
}

/// Rule 8: a `tilepack` before any `tile` of the script.
fn is_before_tile(steps: &[TextStep], place: usize, step: &TextStep) -> bool
    requires { place < length steps.now }
    ensures { result ≡ is_before_tile steps.now place step.now }
{
    is_tilepack(step) && have_tile(&steps[place + 1..])
}

/// Rule 9: the number of a partitioner that isn't handed in.
fn is_foreign(plugs: u32, step: &TextStep) -> bool
    ensures { result ≡ is_foreign plugs step.now }
{
    match step {
        TextStep::Tile {
            seed: TextSeed::Plug(number),
            ..
        } => u64::from(plugs) <= *number,
        _ => false,
    }
}

/// The number of the first of these rules that is broken, counted from 1.
fn first_broken(broken: &[bool]) -> Option<u32>
    requires { length broken.now < 2 ^ 31 }
    ensures { result ≡ position_from (λ one. one) 1 broken.now }
{
    let mut rule = 1;
    for one in broken {
        if *one {
            return Some(rule);
        }
        rule += 1;
    }
    None
}

/// The least rule that the step at this place breaks. Linear in the script, and in the step's names times the loops and
/// arrays.
pub(crate) fn least_rule(steps: &[TextStep], place: usize, shape: &Shape, plugs: u32) -> Option<u32>
    requires { place < length steps.now }
    ensures { result ≡ least_rule shape.now plugs steps.now place }
{
    let step = &steps[place];
    first_broken(&[
        place >= MOST_STEPS,
        is_misnamed(shape, step),
        is_repeating(shape, step),
        differ(shape.arrays.as_slice(), array_names(step)),
        is_empty(step),
        is_late(shape, step),
        is_behind_tile(steps, place, step),
        is_before_tile(steps, place, step),
        is_foreign(plugs, step),
    ])
}
