//! Assignments carried out.

ghost use Rattle.std.specs.Prelude.{◌≡◌};
ghost use Rattle.spf_term.specs.Value.{IsSmall, value};
ghost use Rattle.spf_store.specs.Done.{IsDone};
ghost use Rattle.spf_store.specs.Effect.{assigned};
ghost use Rattle.spf_store.specs.Needs.{IsOwn, IsReadable};
ghost use Rattle.spf_store.specs.Trace.{target_class};

use crate::values::{element, value_of};
use spf_kernel::tree::{Assign, Becomes};
use spf_term::Env;
use spf_touch::{Cells, Class};

/// The class of the target of an assignment with this sign.
pub fn target_class(sign: Becomes) -> Class
    ensures { result ≡ target_class sign }
{
    match sign {
        Becomes::Put => Class::Write,
        Becomes::Add => Class::Add,
    }
}

/// Evaluates the value of an assignment, and then its target, and blends the value in as the class of the sign has it.
pub(crate) fn carry_out<C: Cells>(
    env: &Env,
    starts: &[u32],
    variables: &[i64],
    assign: &Assign,
    cells: &mut C,
)
    requires small { IsSmall env.now variables.now assign.now.sub }
    requires readable { IsReadable env.now starts.now (C.own cells.old) variables.now assign.now.value }
    requires target { IsOwn starts.now (C.own cells.old) assign.now.array (value env.now variables.now assign.now.sub) }
    ensures { IsDone C.own C.value C.kept (assigned env.now starts.now assign.now variables.now) cells.old cells.new }
{
    let value = value_of(env, starts, variables, cells, &assign.value);
    let target = element(env, starts, variables, assign.array, &assign.sub);
    let class = target_class(assign.sign);
    let old = cells.get(target);
    cells.set(target, class.blend(old, value));
}
