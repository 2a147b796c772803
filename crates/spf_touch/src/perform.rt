//! Operations performed on cells.

ghost use Rattle.std.specs.Prelude.{◌≡◌, ℕ, All, true};
ghost use Rattle.spf_touch.specs.Actions.{change, performed};
ghost use Rattle.spf_touch.specs.Ops.{action_of, actions_of, source, target};

use crate::cells::Cells;
use crate::op::Op;
use spf_base::wadd;

/// Performs the operations in turn.
pub(crate) fn perform_all<C: Cells>(ops: &[Op], cells: &mut C)
    requires { All (λ op. (C.own cells.old (source op) ≡ true) × (C.own cells.old (target op) ≡ true)) ops.now }
    ensures own { (e : ℕ) → C.own cells.new e ≡ C.own cells.old e }
    ensures kept { C.kept cells.old cells.new }
    ensures value { (e : ℕ) → C.value cells.new e ≡ performed (actions_of ops.now) (C.value cells.old) e }
{
    for op in ops {
        perform(op, cells);
    }
}

fn perform<C: Cells>(op: &Op, cells: &mut C)
    requires source { C.own cells.old (source op.now) ≡ true }
    requires target { C.own cells.old (target op.now) ≡ true }
    ensures own { (e : ℕ) → C.own cells.new e ≡ C.own cells.old e }
    ensures kept { C.kept cells.old cells.new }
    ensures value { (e : ℕ) → C.value cells.new e ≡ change (action_of op.now) (C.value cells.old) e }
{
    match *op {
        Op::Put { to, from, plus } => {
            let sum = wadd(cells.get(from), plus);
            cells.set(to, sum);
        }
        Op::Gain { to, from } => {
            let sum = wadd(cells.get(to), cells.get(from));
            cells.set(to, sum);
        }
    }
}
