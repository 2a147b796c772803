//! Assignments, conditions and guards.

ghost use Rattle.std.specs.Prelude.{◌≡◌, IfOk, ⊤};
ghost use Rattle.spf_lex.specs.Tokens.{texts};
ghost use Rattle.spf_kernel.specs.Resolved.{assign_of, cond_of, guard_of, part_of};

use crate::check::names::{Source, text_of};
use crate::note::Scope;
use crate::raw::{RawAssign, RawCond, RawGuard, RawPart};
use crate::resolve::terms::resolve_ix;
use crate::resolve::values::resolve_value;
use crate::resolve::{Means, resolve_all};
use crate::tree::{Assign, Cond, Guard, Part};
use spf_base::NoMemory;

impl Means for RawAssign {
    type Tree = Assign;

    ghost are_names = { λ texts scope assign. ⊤ };

    ghost meaning = { assign_of };

    fn resolve(&self, source: &Source, scope: Scope) -> Result<Assign, NoMemory> {
        Ok(Assign {
            array: source.names.data_array(text_of(source.tokens, self.array)),
            sub: resolve_ix(source, scope, &self.at)?,
            sign: self.sign,
            value: resolve_value(source, scope, &self.value)?,
        })
    }
}

impl Means for RawCond {
    type Tree = Cond;

    ghost are_names = { λ texts scope cond. ⊤ };

    ghost meaning = { cond_of };

    fn resolve(&self, source: &Source, scope: Scope) -> Result<Cond, NoMemory> {
        Ok(Cond {
            left: resolve_ix(source, scope, &self.left)?,
            sign: self.sign,
            right: resolve_ix(source, scope, &self.right)?,
        })
    }
}

/// The guard that is meant. Linear in it.
pub(super) fn resolve_guard(
    source: &Source,
    scope: Scope,
    guard: &RawGuard,
) -> Result<Guard, NoMemory>
    ensures { IfOk result (λ found. found ≡ guard_of (texts source.now.tokens.now) source.now.names.now scope guard.now) }
{
    Ok(Guard {
        conds: resolve_all(source, scope, guard.conds.as_slice())?,
        body: resolve_all(source, scope, guard.body.as_slice())?,
    })
}

impl Means for RawPart {
    type Tree = Part;

    ghost are_names = { λ texts scope part. ⊤ };

    ghost meaning = { part_of };

    fn resolve(&self, source: &Source, scope: Scope) -> Result<Part, NoMemory> {
        match self {
            RawPart::Assign(assign) => Ok(Part::Assign(assign.resolve(source, scope)?)),
            RawPart::Guard(guard) => Ok(Part::Branch(resolve_guard(source, scope, guard)?)),
        }
    }
}
