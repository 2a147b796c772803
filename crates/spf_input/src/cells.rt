//! The numbers that are given for the data arrays.

ghost use Rattle.std.specs.Prelude.{◌≡◌, ◌++◌, None, map, flat_map, IfOk, OnOk};
ghost use Rattle.spf_kernel.specs.TreeNames.{arrays_of};
ghost use Rattle.spf_input.specs.Given.{numbers_of};
ghost use Rattle.spf_input.specs.Rules.{large_number};

use crate::lookup::Entries;
use spf_base::NoMemory;
use spf_kernel::tree::{DataDecl, Decl};
use std::alloc::Global;

fn push_arrays(entries: &Entries, arrays: &[DataDecl], cells: &mut Vec<i64>) -> Result<(), NoMemory>
    requires { large_number entries.now ≡ None }
    ensures { OnOk result (cells.new.items ≡ cells.old.items ++ flat_map (numbers_of entries.now) (map (λ array. array.name) arrays.now)) }
{
    for array in arrays {
        entries.push_numbers(array.name.bytes(), cells)?;
    }
    Ok(())
}

fn push_decl(entries: &Entries, decl: &Decl, cells: &mut Vec<i64>) -> Result<(), NoMemory>
    requires { large_number entries.now ≡ None }
    ensures { OnOk result (cells.new.items ≡ cells.old.items ++ flat_map (numbers_of entries.now) (arrays_of decl.now)) }
{
    match decl {
        Decl::Values { arrays } => push_arrays(entries, arrays.as_slice(), cells),
        Decl::Params { .. } | Decl::Index { .. } => Ok(()),
    }
}

/// The numbers of the data arrays, one array behind the other. Linear in them.
pub(crate) fn read_cells(
    alloc: Global,
    entries: &Entries,
    decls: &[Decl],
) -> Result<Vec<i64>, NoMemory>
    requires { large_number entries.now ≡ None }
    ensures { IfOk result (λ cells. cells.items ≡ flat_map (numbers_of entries.now) (flat_map arrays_of decls.now)) }
{
    let mut cells = Vec::new(alloc);
    for decl in decls {
        push_decl(entries, decl, &mut cells)?;
    }
    Ok(cells)
}
