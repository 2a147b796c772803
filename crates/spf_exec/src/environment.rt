//! The environment that the executor's terms are evaluated in.

ghost use Rattle.std.specs.Prelude.{All, IfOk};
ghost use Rattle.spf_exec.specs.Moves.{AreMovesOf, IsExecutorEnv, IsLower, extents};

use crate::program::Moved;
use crate::tables::{order_tables, packing_tables, push_copies};
use spf_base::NoMemory;
use spf_space::LoopShape;
use spf_term::Env;
use std::alloc::Global;

/// Copies of the parameters and the index arrays, and behind these the tables of the loops' orders and of the arrays' packings.
/// Linear in all entries, with 8 bytes for each.
pub(crate) fn executor_env(
    alloc: Global,
    env: &Env,
    loops: &[LoopShape],
    moved: &Moved,
) -> Result<Env, NoMemory>
    requires lowers { All (λ each. IsLower each.lower) loops.now }
    requires moves { AreMovesOf (extents loops.now) moved.now.loops }
    ensures { IfOk result (IsExecutorEnv env.now loops.now moved.now) }
{
    let mut params = Vec::new(alloc);
    params.extend_from_slice(env.params.as_slice())?;
    let mut tables = Vec::new(alloc);
    push_copies(alloc, env.tables.as_slice(), &mut tables)?;
    let mut orders = order_tables(alloc, loops, moved.loops.as_slice())?;
    let mut packings = packing_tables(alloc, moved.arrays.as_slice())?;
    tables.append(&mut orders)?;
    tables.append(&mut packings)?;
    Ok(Env { params, tables })
}
