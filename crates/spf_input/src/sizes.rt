//! Rules 6 and 7: each array has a size in its range, and is given so many numbers.

ghost use Rattle.std.specs.Prelude.{◌≡◌, ℤ, pos, neg_ℤ, [], All};
ghost use Rattle.spf_term.specs.Bounded.{AreWithin, IsBounded};
ghost use Rattle.spf_kernel.specs.Bounded.{IsBoundedDecl};
ghost use Rattle.spf_kernel.specs.declared.tree.DataDecl.{DataDecl};
ghost use Rattle.spf_input.specs.Rules.{bad_length_of, bad_size_of, first, first_array};
ghost use Rattle.spf_input.specs.Tested.{Tests};

use crate::fault::{InputFault, refused};
use crate::lookup::Entries;
use spf_base::Name;
use spf_kernel::tree::{DataDecl, Decl};
use spf_store::outer_value;
use spf_term::{Env, Term};
use std::alloc::Global;

/// The greatest size of an array.
const MOST_CELLS: i64 = 4_194_303;

fn test_size(alloc: Global, env: &Env, name: &Name, size: &Term) -> Result<(), InputFault>
    requires within { AreWithin env.now [] }
    requires bounded { IsBounded size.now }
    ensures { Tests 6 (bad_size_of env.now name.now size.now) result }
{
    let size = outer_value(env, size);
    if 0 <= size && size <= MOST_CELLS {
        Ok(())
    } else {
        Err(refused(alloc, name.bytes(), 0, 6))
    }
}

fn test_array_sizes(alloc: Global, env: &Env, arrays: &[DataDecl]) -> Result<(), InputFault>
    requires within { AreWithin env.now [] }
    requires bounded { All (λ (array : DataDecl). IsBounded array.size) arrays.now }
    ensures { Tests 6 (first (λ (array : DataDecl). bad_size_of env.now array.name array.size) arrays.now) result }
{
    for array in arrays {
        test_size(alloc, env, &array.name, &array.size)?;
    }
    Ok(())
}

fn test_decl_sizes(alloc: Global, env: &Env, decl: &Decl) -> Result<(), InputFault>
    requires within { AreWithin env.now [] }
    requires bounded { IsBoundedDecl decl.now }
    ensures { Tests 6 (first_array (bad_size_of env.now) decl.now) result }
{
    match decl {
        Decl::Params { .. } => Ok(()),
        Decl::Index { name, size, .. } => test_size(alloc, env, name, size),
        Decl::Values { arrays } => test_array_sizes(alloc, env, arrays.as_slice()),
    }
}

/// Rule 6: each size is in its range. Linear in the declarations.
pub(crate) fn test_sizes(alloc: Global, env: &Env, decls: &[Decl]) -> Result<(), InputFault>
    requires within { AreWithin env.now [] }
    requires bounded { All IsBoundedDecl decls.now }
    ensures { Tests 6 (first (first_array (bad_size_of env.now)) decls.now) result }
{
    for decl in decls {
        test_decl_sizes(alloc, env, decl)?;
    }
    Ok(())
}

fn test_length(
    alloc: Global,
    env: &Env,
    entries: &Entries,
    name: &Name,
    size: &Term,
) -> Result<(), InputFault>
    requires within { AreWithin env.now [] }
    requires bounded { IsBounded size.now }
    ensures { Tests 7 (bad_length_of env.now entries.now name.now size.now) result }
{
    let count = entries.numbers(name.bytes()).count();
    if outer_value(env, size) == i64::from(count) {
        Ok(())
    } else {
        Err(refused(alloc, name.bytes(), count, 7))
    }
}

fn test_array_lengths(
    alloc: Global,
    env: &Env,
    entries: &Entries,
    arrays: &[DataDecl],
) -> Result<(), InputFault>
    requires within { AreWithin env.now [] }
    requires bounded { All (λ (array : DataDecl). IsBounded array.size) arrays.now }
    ensures { Tests 7 (first (λ (array : DataDecl). bad_length_of env.now entries.now array.name array.size) arrays.now) result }
{
    for array in arrays {
        test_length(alloc, env, entries, &array.name, &array.size)?;
    }
    Ok(())
}

fn test_decl_lengths(
    alloc: Global,
    env: &Env,
    entries: &Entries,
    decl: &Decl,
) -> Result<(), InputFault>
    requires within { AreWithin env.now [] }
    requires bounded { IsBoundedDecl decl.now }
    ensures { Tests 7 (first_array (bad_length_of env.now entries.now) decl.now) result }
{
    match decl {
        Decl::Params { .. } => Ok(()),
        Decl::Index { name, size, .. } => test_length(alloc, env, entries, name, size),
        Decl::Values { arrays } => test_array_lengths(alloc, env, entries, arrays.as_slice()),
    }
}

/// Rule 7: each list is as long as its array. Linear in the declarations and in the numbers.
pub(crate) fn test_lengths(
    alloc: Global,
    env: &Env,
    entries: &Entries,
    decls: &[Decl],
) -> Result<(), InputFault>
    requires within { AreWithin env.now [] }
    requires bounded { All IsBoundedDecl decls.now }
    ensures { Tests 7 (first (first_array (bad_length_of env.now entries.now)) decls.now) result }
{
    for decl in decls {
        test_decl_lengths(alloc, env, entries, decl)?;
    }
    Ok(())
}
