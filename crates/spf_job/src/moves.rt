//! What a plan has moved.

ghost use Rattle.std.specs.Prelude.{◌≡◌, List, IfOk, length};
ghost use Rattle.spf_touch.specs.declared.touch.Touch.{Touch};
ghost use Rattle.spf_plan.specs.Planned.{IsPlanOf};
ghost use Rattle.spf_exec.specs.Moves.{AreMovesOf, extents, lengths, packings_of};
ghost use Rattle.spf_job.specs.PlanMoves.{moved_of, moves_of};

use spf_base::NoMemory;
use spf_exec::Moved;
use spf_perm::Perm;
use spf_plan::Plan;
use spf_space::Shape;
use sqlite_items::Items;
use std::alloc::Global;

/// The permutations that have a mark, each copied.
fn marked(alloc: Global, marks: &[bool], perms: &[Perm]) -> Result<Items<Option<Perm>>, NoMemory>
    requires { length marks.now ≡ length perms.now }
    ensures { IfOk result (λ moves. moves ≡ moves_of marks.now perms.now) }
{
    let mut moves = Items::new(alloc);
    for (n, is_marked) in marks.iter().enumerate() {
        if *is_marked {
            moves.push(Some(perms[n].copied(alloc)?))?;
        } else {
            moves.push(None)?;
        }
    }
    Ok(moves)
}

/// The orders of the loops and the packings of the arrays that the plan has moved. Linear in their positions and places, with
/// 4 bytes for each.
pub fn moved(alloc: Global, shape: &Shape, plan: &Plan) -> Result<Moved, NoMemory>
    requires { (touches : List (List Touch)) × IsPlanOf touches shape.now plan.now }
    ensures moved { IfOk result (λ moved. moved ≡ moved_of plan.now) }
    ensures loops { IfOk result (λ moved. AreMovesOf (extents shape.now.loops) moved.loops) }
    ensures arrays { IfOk result (λ moved. AreMovesOf (lengths shape.now.arrays) moved.arrays) }
    ensures packings { IfOk result (λ moved. packings_of moved.arrays shape.now.arrays ≡ plan.now.packs) }
{
    let orders = plan.places().orders.as_slice();
    let loops = marked(alloc, plan.moved_loops(), orders)?;
    let arrays = marked(alloc, plan.moved_arrays(), plan.packs())?;
    Ok(Moved { loops, arrays })
}
