//! The tables of orders and packings.

ghost use Rattle.std.specs.Prelude.{◌≡◌, ◌+◌, ◌++◌, ◌<◌, ◌≤◌, ◌^◌, All, IfOk, OnOk, None, Some, length, map, slice_index_or, vec_items};
ghost use Rattle.spf_perm.specs.Perm.{IsPerm};
ghost use Rattle.spf_space.specs.Layout.{limit};
ghost use Rattle.spf_space.specs.declared.shape.LoopShape.{LoopShape};
ghost use Rattle.spf_exec.specs.Executor.{IsOrderTable};
ghost use Rattle.spf_exec.specs.Moves.{AreMovesOf, AreOrderTables, IsLower, IsMove, extents, packing_table};

use spf_base::NoMemory;
use spf_perm::Perm;
use spf_space::LoopShape;
use std::alloc::Global;

/// By new position the iteration of a loop with this lower bound. Linear in the positions.
fn iterations(alloc: Global, lower: i64, moves: &Perm) -> Result<Vec<i64>, NoMemory>
    requires lower { IsLower lower }
    requires perm { IsPerm moves.now }
    ensures { IfOk result (λ table. IsOrderTable lower (Some moves.now) table.items) }
{
    let mut table = vec![in alloc; 0; moves.len() as usize]?;
    for position in 0..moves.len() {
        table[moves.at(position) as usize] = lower + i64::from(position);
    }
    Ok(table)
}

/// The same of a loop that may be moved, and an empty table where it isn't.
fn order_table(alloc: Global, lower: i64, moves: &Option<Perm>) -> Result<Vec<i64>, NoMemory>
    requires lower { IsLower lower }
    requires perm { IsMove moves.now }
    ensures { IfOk result (λ table. IsOrderTable lower moves.now table.items) }
{
    match moves {
        Some(perm) => iterations(alloc, lower, perm),
        None => Ok(Vec::new(alloc)),
    }
}

/// For each loop the table of its order, and an empty one where it isn't moved. Linear in the positions of those that are.
pub(crate) fn order_tables(
    alloc: Global,
    loops: &[LoopShape],
    moves: &[Option<Perm>],
) -> Result<Vec<Vec<i64>>, NoMemory>
    requires lowers { All (λ each. IsLower each.lower) loops.now }
    requires moves { AreMovesOf (extents loops.now) moves.now }
    ensures { IfOk result (λ tables. AreOrderTables loops.now moves.now (map vec_items tables.items)) }
{
    let mut tables = Vec::new(alloc);
    for (number, each) in loops.iter().enumerate() {
        tables.push(order_table(alloc, each.lower, &moves[number])?)?;
    }
    Ok(tables)
}

/// By place the packed place. Linear in the places.
fn packing_table(alloc: Global, moves: &Option<Perm>) -> Result<Vec<i64>, NoMemory>
    ensures { IfOk result (λ table. table.items ≡ packing_table moves.now) }
{
    let mut table = Vec::new(alloc);
    if let Some(perm) = moves {
        for place in 0..perm.len() {
            table.push(i64::from(perm.at(place)))?;
        }
    }
    Ok(table)
}

/// For each array the table of its packing, and an empty one where it isn't packed. Linear in the places of those that are.
pub(crate) fn packing_tables(
    alloc: Global,
    moves: &[Option<Perm>],
) -> Result<Vec<Vec<i64>>, NoMemory>
    ensures { IfOk result (λ tables. map vec_items tables.items ≡ map packing_table moves.now) }
{
    let mut tables = Vec::new(alloc);
    for of in moves {
        tables.push(packing_table(alloc, of)?)?;
    }
    Ok(tables)
}

/// Copies of the tables. Linear in their entries.
pub(crate) fn push_copies(
    alloc: Global,
    from: &[Vec<i64>],
    tables: &mut Vec<Vec<i64>>,
) -> Result<(), NoMemory>
    ensures { OnOk result (map vec_items tables.new.items ≡ map vec_items tables.old.items ++ map vec_items from.now) }
{
    for table in from {
        let mut copy = Vec::new(alloc);
        copy.extend_from_slice(table.as_slice())?;
        tables.push(copy)?;
    }
    Ok(())
}
