//! The text of a plan.

ghost use Rattle.std.specs.Prelude.{◌≡◌, ◌++◌, ◌∷◌, ◌<◌, ◌≤ℤ◌, ◌+ℤ◌, IfOk, OnOk, decimal, flat_map, length, neg_ℤ, pos};
ghost use Rattle.std.specs.Fmt.{signed_decimal};
ghost use Rattle.std.specs.List.{range_with_len};
ghost use Rattle.spf_perm.specs.Perm.{AreInverse, at};
ghost use Rattle.spf_space.specs.Layout.{limit};
ghost use Rattle.spf_space.specs.Places.{ArePlacesOf};
ghost use Rattle.spf_space.specs.Units.{units_of};
ghost use Rattle.spf_top.specs.PlanText.{at_line, before_line, data_line, data_lines, loop_line, loop_lines, order_lines, plan_text, spaced, step_lines, tiles_line};

use itoa::Buffer;
use spf_base::NoMemory;
use spf_core::Order;
use spf_perm::Perm;
use spf_plan::Plan;
use spf_space::{ArrayShape, LoopShape, Places, Shape};
use std::alloc::Global;

/// Appends a number.
fn push_number(text: &mut Vec<u8>, number: u32) -> Result<(), NoMemory>
    ensures { OnOk result (text.new.items ≡ text.old.items ++ decimal number) }
{
    let mut buffer = Buffer::new();
    text.extend_from_slice(buffer.format(number).as_bytes())?;
    Ok(())
}

/// Appends the numbers, each behind a space. Linear in what it appends.
fn push_numbers(text: &mut Vec<u8>, numbers: &[u32]) -> Result<(), NoMemory>
    ensures { OnOk result (text.new.items ≡ text.old.items ++ spaced numbers.now) }
{
    for number in numbers {
        text.push(b' ')?;
        push_number(text, *number)?;
    }
    Ok(())
}

/// Appends the packed places, each behind a space. Linear in what it appends.
fn push_places(text: &mut Vec<u8>, pack: &Perm) -> Result<(), NoMemory>
    ensures { OnOk result (text.new.items ≡ text.old.items ++ spaced pack.now) }
{
    for place in 0..pack.len() {
        text.push(b' ')?;
        push_number(text, pack.at(place))?;
    }
    Ok(())
}

/// The value of the loop's variable at a source position.
fn iteration_of(each: &LoopShape, position: u32) -> i64
    requires least { neg_ℤ (pos limit) ≤ℤ each.now.lower }
    requires greatest { each.now.lower ≤ℤ pos limit }
    ensures { result ≡ each.now.lower +ℤ pos position }
{
    each.lower + i64::from(position)
}

/// Appends the iterations of a loop that stand at the positions, each behind a space, where these are their source
/// positions. Linear in what it appends.
fn push_iterations(text: &mut Vec<u8>, each: &LoopShape, sources: &Perm) -> Result<(), NoMemory>
    requires least { neg_ℤ (pos limit) ≤ℤ each.now.lower }
    requires greatest { each.now.lower ≤ℤ pos limit }
    ensures { OnOk result (text.new.items ≡ text.old.items
        ++ flat_map (λ position. 32 ∷ signed_decimal (each.now.lower +ℤ pos (at sources.now position))) (range_with_len 0 (length sources.now))) }
{
    let mut buffer = Buffer::new();
    for position in 0..sources.len() {
        let iteration = iteration_of(each, sources.at(position));
        text.push(b' ')?;
        text.extend_from_slice(buffer.format(iteration).as_bytes())?;
    }
    Ok(())
}

/// The permutation that leads back. Linear in the elements.
fn inverse(alloc: Global, perm: &Perm) -> Result<Perm, NoMemory>
    ensures { IfOk result (AreInverse perm.now) }
{
    match perm.inverse(alloc) {
        Ok(back) => Ok(back),
        Err(_) => Err(NoMemory),
    }
}

/// Appends the line of a loop that is run in this order. Linear in the loop's iterations, and it takes 4 bytes for each while
/// it works.
fn push_loop(
    alloc: Global,
    text: &mut Vec<u8>,
    each: &LoopShape,
    order: &Perm,
) -> Result<(), NoMemory>
    requires least { neg_ℤ (pos limit) ≤ℤ each.now.lower }
    requires greatest { each.now.lower ≤ℤ pos limit }
    requires extent { length order.now ≡ each.now.extent }
    ensures { OnOk result (text.new.items ≡ text.old.items ++ loop_line each.now order.now) }
{
    let sources = inverse(alloc, order)?;
    text.extend_from_slice(b"loop ")?;
    text.extend_from_slice(each.name.bytes())?;
    push_iterations(text, each, &sources)?;
    text.push(b'\n')?;
    Ok(())
}

/// Appends the line of an array that is packed so. Linear in what it appends.
fn push_data(text: &mut Vec<u8>, array: &ArrayShape, pack: &Perm) -> Result<(), NoMemory>
    ensures { OnOk result (text.new.items ≡ text.old.items ++ data_line array.now pack.now) }
{
    text.extend_from_slice(b"data ")?;
    text.extend_from_slice(array.name.bytes())?;
    push_places(text, pack)?;
    text.push(b'\n')?;
    Ok(())
}

/// Appends the line of the number of tiles.
fn push_count(text: &mut Vec<u8>, count: u32) -> Result<(), NoMemory>
    ensures { OnOk result (text.new.items ≡ text.old.items ++ tiles_line count) }
{
    text.extend_from_slice(b"tiles ")?;
    push_number(text, count)?;
    text.push(b'\n')?;
    Ok(())
}

/// Appends the line of a loop's tiles at a step. Linear in what it appends.
fn push_at(text: &mut Vec<u8>, step: u32, each: &LoopShape, tiles: &[u32]) -> Result<(), NoMemory>
    ensures { OnOk result (text.new.items ≡ text.old.items ++ at_line step each.now tiles.now) }
{
    text.extend_from_slice(b"at ")?;
    push_number(text, step)?;
    text.push(b' ')?;
    text.extend_from_slice(each.name.bytes())?;
    push_numbers(text, tiles)?;
    text.push(b'\n')?;
    Ok(())
}

/// Appends the line of the tiles before a tile. Linear in what it appends.
fn push_before(text: &mut Vec<u8>, tile: u32, before: &[u32]) -> Result<(), NoMemory>
    ensures { OnOk result (text.new.items ≡ text.old.items ++ before_line tile before.now) }
{
    text.extend_from_slice(b"before ")?;
    push_number(text, tile)?;
    push_numbers(text, before)?;
    text.push(b'\n')?;
    Ok(())
}

/// Appends a line for each loop. Linear in the iterations of a step.
fn push_loops(
    alloc: Global,
    text: &mut Vec<u8>,
    shape: &Shape,
    places: &Places,
) -> Result<(), NoMemory>
    requires { ArePlacesOf shape.now.steps shape.now.loops places.now.tiles places.now.orders }
    ensures { OnOk result (text.new.items ≡ text.old.items ++ loop_lines shape.now.loops places.now.orders) }
{
    let loops = shape.loops.as_slice();
    let orders = places.orders.as_slice();
    for (number, each) in loops.iter().enumerate() {
        push_loop(alloc, text, each, &orders[number])?;
    }
    Ok(())
}

/// The number at this place. There is none behind 2^32 others, which is told as out of memory.
fn number_of(index: usize) -> Result<u32, NoMemory>
    ensures { IfOk result (λ number. number ≡ index) }
{
    match u32::try_from(index) {
        Ok(number) => Ok(number),
        Err(_) => Err(NoMemory),
    }
}

/// Appends a line for each array. Linear in what it appends.
fn push_arrays(text: &mut Vec<u8>, arrays: &[ArrayShape], plan: &Plan) -> Result<(), NoMemory>
    requires { length plan.now.packs ≡ length arrays.now }
    ensures { OnOk result (text.new.items ≡ text.old.items ++ data_lines arrays.now plan.now) }
{
    for (index, array) in arrays.iter().enumerate() {
        let number = number_of(index)?;
        push_data(text, array, plan.pack(number))?;
    }
    Ok(())
}

/// Appends a line for each loop at a step. Linear in what it appends.
fn push_step(text: &mut Vec<u8>, step: u32, shape: &Shape, tiles: &[u32]) -> Result<(), NoMemory>
    requires step { step < shape.now.steps }
    requires tiles { length tiles.now ≡ length (units_of shape.now.steps shape.now.loops) }
    ensures { OnOk result (text.new.items ≡ text.old.items ++ step_lines shape.now.loops tiles.now step) }
{
    let loops = shape.loops.as_slice();
    let mut first = step as usize * shape.per_step() as usize;
    for each in loops {
        let end = first + each.extent as usize;
        push_at(text, step, each, &tiles[first..end])?;
        first = end;
    }
    Ok(())
}

/// Appends the lines of all steps. Linear in what it appends.
fn push_steps(text: &mut Vec<u8>, shape: &Shape, tiles: &[u32]) -> Result<(), NoMemory>
    requires { length tiles.now ≡ length (units_of shape.now.steps shape.now.loops) }
    ensures { OnOk result (text.new.items ≡ text.old.items ++ flat_map (step_lines shape.now.loops tiles.now) (range_with_len 0 shape.now.steps)) }
{
    for step in 0..shape.steps {
        push_step(text, step, shape, tiles)?;
    }
    Ok(())
}

/// Appends a line for each tile. Linear in what it appends.
fn push_order(text: &mut Vec<u8>, order: &Order) -> Result<(), NoMemory>
    ensures { OnOk result (text.new.items ≡ text.old.items ++ order_lines order.now) }
{
    for tile in 0..order.count() {
        push_before(text, tile, order.tiles_before(tile))?;
    }
    Ok(())
}

/// The text of a plan of this shape, where this is the order of its tiles. Linear in what it gives; while it works it takes
/// 4 bytes for each iteration of a loop.
pub fn plan_text(
    alloc: Global,
    shape: &Shape,
    plan: &Plan,
    order: &Order,
) -> Result<Vec<u8>, NoMemory>
    requires places { ArePlacesOf shape.now.steps shape.now.loops plan.now.tiles plan.now.orders }
    requires packs { length plan.now.packs ≡ length shape.now.arrays }
    ensures { IfOk result (λ text. text.items ≡ plan_text shape.now plan.now order.now) }
{
    let places = plan.places();
    let mut text = Vec::new(alloc);
    push_loops(alloc, &mut text, shape, places)?;
    push_arrays(&mut text, shape.arrays.as_slice(), plan)?;
    push_count(&mut text, plan.tiles())?;
    push_steps(&mut text, shape, places.tiles.as_slice())?;
    push_order(&mut text, order)?;
    Ok(text)
}
