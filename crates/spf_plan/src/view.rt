//! What a seed sees of a loop.

ghost use Rattle.std.specs.Prelude.{◌≡◌, ◌++◌, ◌+◌, ◌<◌, ◌≤◌, ◌^◌, IfOk, OnOk, [], length, map, slice_index_or, take};
ghost use Rattle.spf_perm.specs.Perm.{IsPerm};
ghost use Rattle.spf_touch.specs.declared.touch.Touch.{Touch};
ghost use Rattle.spf_space.specs.Layout.{iterations};
ghost use Rattle.spf_seed.specs.View.{IsView};
ghost use Rattle.spf_plan.specs.Seeded.{elements_at, view_of};

use spf_base::NoMemory;
use spf_perm::{Perm, made};
use spf_seed::SeedView;
use spf_space::Shape;
use spf_touch::{Touch, Touches};
use sqlite_items::Items;
use std::alloc::Global;

/// The elements of these touches, behind those that are there.
fn push_elements(elements: &mut Items<u32>, touches: &[Touch]) -> Result<(), NoMemory>
    ensures { OnOk result (elements.new ≡ elements.old ++ map (λ (touch : Touch). touch.element) touches.now) }
{
    for touch in touches {
        elements.push(touch.element)?;
    }
    Ok(())
}

/// Where the next elements begin. There is no number for a place behind 2^32 elements, which is told as want of memory.
fn start_behind(elements: &Items<u32>) -> Result<u32, NoMemory>
    ensures start { IfOk result (λ start. start ≡ length elements.now) }
    ensures few { IfOk result (λ start. length elements.now < 2 ^ 32) }
{
    match u32::try_from(elements.len()) {
        Ok(start) => Ok(start),
        Err(_) => Err(NoMemory),
    }
}

/// What a seed of so many parts sees of the loop in this order. There is no view of 2^32 elements or more, which is told as
/// want of memory. Linear in the positions of the loop and their touches.
pub(crate) fn view(
    alloc: Global,
    touches: &Touches,
    shape: &Shape,
    of: u32,
    order: &Perm,
    parts: u32,
) -> Result<SeedView, NoMemory>
    requires perm { IsPerm order.now }
    requires there { of < length shape.now.loops }
    requires positions { iterations (take of shape.now.loops) + length order.now ≤ length touches.now }
    requires few { length touches.now < 2 ^ 32 }
    requires some { 1 ≤ parts }
    ensures view { IfOk result (λ view. view ≡ view_of touches.now shape.now of order.now parts) }
    ensures is { IfOk result IsView }
{
    let first = shape.before(of);
    let back = made(order.inverse(alloc))?;
    let mut starts = Items::new(alloc);
    let mut elements = Items::new(alloc);
    starts.push(0)?;
    for position in 0..order.len() {
        push_elements(&mut elements, touches.of(first + back.at(position)))?;
        starts.push(start_behind(&elements)?)?;
    }
    Ok(SeedView {
        parts,
        starts,
        elements,
    })
}
