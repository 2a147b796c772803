//! Rule 4: each parameter is given one number in its range.

ghost use Rattle.std.specs.Prelude.{◌≡◌, ◌++◌, ◌∷◌, [], None, map, IfOk, OnOk};
ghost use Rattle.spf_term.specs.Bounded.{AreWithin};
ghost use Rattle.spf_kernel.specs.TreeNames.{params_of};
ghost use Rattle.spf_input.specs.Given.{numbers_of};
ghost use Rattle.spf_input.specs.Numbers.{only, outer_env, param_values};
ghost use Rattle.spf_input.specs.Rules.{bad_parameter, first, is_parameter, unless};
ghost use Rattle.spf_input.specs.Tested.{Tests};

use crate::fault::{InputFault, refused};
use crate::lookup::Entries;
use spf_base::{Name, NoMemory};
use spf_kernel::tree::{Decl, Tree};
use std::alloc::Global;

fn push(list: &mut Vec<i64>, value: i64) -> Result<(), NoMemory>
    ensures { OnOk result (list.new.items ≡ list.old.items ++ value ∷ []) }
{
    Ok(list.push(value)?)
}

/// Puts the values of parameters behind others. Linear in what is given for them.
fn push_params(
    alloc: Global,
    entries: &Entries,
    names: &[Name],
    params: &mut Vec<i64>,
) -> Result<(), InputFault>
    ensures tests { Tests 4 (first (λ name. unless (is_parameter (numbers_of entries.now name)) name) names.now) result }
    ensures values { OnOk result (params.new.items ≡ params.old.items ++ map (λ name. only (numbers_of entries.now name)) names.now) }
{
    for name in names {
        match entries.numbers(name.bytes()).parameter() {
            Some(value) => push(params, value)?,
            None => return Err(refused(alloc, name.bytes(), 0, 4)),
        }
    }
    Ok(())
}

fn push_decl(
    alloc: Global,
    entries: &Entries,
    decl: &Decl,
    params: &mut Vec<i64>,
) -> Result<(), InputFault>
    ensures tests { Tests 4 (first (λ name. unless (is_parameter (numbers_of entries.now name)) name) (params_of decl.now)) result }
    ensures values { OnOk result (params.new.items ≡ params.old.items ++ map (λ name. only (numbers_of entries.now name)) (params_of decl.now)) }
{
    match decl {
        Decl::Params { names } => push_params(alloc, entries, names.as_slice(), params),
        Decl::Index { .. } | Decl::Values { .. } => Ok(()),
    }
}

/// The values of the parameters, where rule 4 is kept. Linear in what is given for them.
#[tactic(auto, using(crate::proofs::Within::outer_within))]
pub(crate) fn read_params(
    alloc: Global,
    tree: &Tree,
    entries: &Entries,
) -> Result<Vec<i64>, InputFault>
    ensures tests { Tests 4 (bad_parameter tree.now entries.now) result }
    ensures values { IfOk result (λ params. params.items ≡ param_values tree.now entries.now) }
    ensures within { bad_parameter tree.now entries.now ≡ None → AreWithin (outer_env tree.now entries.now) [] }
{
    let mut params = Vec::new(alloc);
    for decl in tree.decls.as_slice() {
        push_decl(alloc, entries, decl, &mut params)?;
    }
    Ok(params)
}
