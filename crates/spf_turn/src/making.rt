//! Making the passes of a turn, and joining them.

ghost use Rattle.std.specs.Prelude.{◌≡◌, ◌≤◌, ◌+◌, false, [], length, vec_len, vec_capacity, map, All, IfOk};
ghost use Rattle.std.specs.List.{range_with_len};
ghost use Rattle.spf_turn.specs.Passes.{fresh_pass};
ghost use Rattle.spf_turn.specs.Seats.{IsBoard, turn_state};
ghost use Rattle.spf_turn.specs.Closing.{Represents};
ghost use Rattle.spf_turn.specs.Steps.{first_view};

use crate::board::{About, Board, Place, SharedBoard};
use crate::pass::Pass;
use crate::plays::{Gather, Next};
use crate::rule::TurnRule;
use atomic_table::Table;
use spf_base::NoMemory;
use std::alloc::Global;
use std::snapshot::Snapshot;

// The table, with the seat of the first pass.
pub(crate) fn open_board<T: Drop, R: TurnRule<T>>(
    alloc: Global,
    value: T,
    passes: u32,
) -> Result<(Board<T, R>, Place<T, R>), NoMemory>
    requires passes { (1 ≤ passes) × (passes ≤ 64) }
    requires tale { R.tale value ≡ [] }
    ensures board { IfOk result (λ r. IsBoard r.0.shared.table_id r.0.shared.key × (r.0.shared.key.first.value ≡ value) × (r.0.shared.key.passes ≡ passes)) }
    ensures seat { IfOk result (λ r. (r.1.table_id ≡ r.0.shared.table_id) × (r.1.me ≡ (first_view (R.key value) passes, []))) }
{
    let about = About {
        first: Snapshot::of(&value),
        passes,
    };
    let mut slots = Vec::with_capacity(alloc, 1)?;
    slots.push_reserved(Some(value));
    match Table::new(alloc, &[0, 0], slots, &about) {
        Ok(made) => Ok(made),
        Err(_refused) => Err(NoMemory),
    }
}

// Splits off all passes but the first, and puts them in order.
pub(crate) fn split_passes<T, R: TurnRule<T>>(
    table: &SharedBoard<T, R>,
    mut seat: Place<T, R>,
    passes: u32,
    all: &mut Vec<Pass<T, R>>,
)
    requires table { IsBoard table.now.table_id table.now.key }
    requires passes { table.now.key.passes ≡ passes }
    requires seat { (seat.table_id ≡ table.now.table_id) × (seat.me ≡ (first_view (R.key table.now.key.first.value) table.now.key.passes, [])) }
    requires room { (all.old.items ≡ []) × (passes ≤ vec_capacity all.old) }
    ensures { all.new.items ≡ map (fresh_pass (turn_state R.key table.now.table_id table.now.key)) (range_with_len 1 passes) }
{
    for number in 2..passes + 1 {
        let other = table.split_seat::<Next>(&mut seat);
        all.push_reserved(Pass {
            number,
            seat: other,
        });
    }
    all.push_reserved(Pass { number: 1, seat });
    all.rotate_right(1);
}

// Joins all passes to the last one.
pub(crate) fn join_passes<T, R: TurnRule<T>>(
    table: &SharedBoard<T, R>,
    mut passes: Vec<Pass<T, R>>,
) -> Place<T, R>
    requires some { 1 ≤ vec_len passes }
    requires table { All (λ pass. pass.table ≡ table.now.table_id) passes.items }
    requires words { 1 ≤ table.now.table_id.words }
    requires free { All (λ pass. pass.holds ≡ false) passes.items }
    ensures table { result.table_id ≡ table.now.table_id }
    ensures seated { (1 ≤ result.me.0.number) × (result.me.0.holds ≡ false) }
    ensures count { 1 + length result.me.0.joined ≡ vec_len passes }
    ensures each { All (λ pass. Represents R.who result.me.0 pass) passes.items }
{
    let Some(pass) = passes.pop() else {
        unreachable!()
    };
    let mut kept = pass.into_seat();
    while let Some(pass) = passes.pop() {
        table.join_seat::<Gather>(&mut kept, pass.into_seat());
    }
    kept
}
