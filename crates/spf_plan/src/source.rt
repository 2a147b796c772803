//! The parts of the source plan.

ghost use Rattle.std.specs.Prelude.{◌≡◌, IfOk, map};
ghost use Rattle.std.specs.List.{range_with_len};
ghost use Rattle.spf_plan.specs.Planned.{own_places, source_orders};

use spf_base::NoMemory;
use spf_perm::{Perm, made};
use spf_space::{ArrayShape, LoopShape};
use sqlite_items::Items;
use std::alloc::Global;

/// The source order of each loop. Linear in the iterations of a step.
pub(crate) fn source_orders(alloc: Global, loops: &[LoopShape]) -> Result<Items<Perm>, NoMemory>
    ensures { IfOk result (λ orders. orders ≡ source_orders loops.now) }
{
    let mut orders = Items::new(alloc);
    for each in loops {
        orders.push(made(Perm::identity(alloc, each.extent))?)?;
    }
    Ok(orders)
}

/// The own places of each array. Linear in the cells.
pub(crate) fn own_places(alloc: Global, arrays: &[ArrayShape]) -> Result<Items<Perm>, NoMemory>
    ensures { IfOk result (λ packs. packs ≡ own_places arrays.now) }
{
    let mut packs = Items::new(alloc);
    for array in arrays {
        packs.push(made(Perm::identity(alloc, array.length))?)?;
    }
    Ok(packs)
}
