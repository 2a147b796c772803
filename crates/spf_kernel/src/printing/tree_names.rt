//! The names that the declarations of a tree give to numbers.

ghost use Rattle.std.specs.Prelude.{◌≡◌, ◌++◌, ◌∷◌, [], map, OnOk, IfOk};
ghost use Rattle.spf_kernel.specs.TreeNames.{params_of, tables_of, arrays_of, names_in, name_at};

use crate::tree::{DataDecl, Decl};
use spf_base::{Name, NoMemory};
use spf_lex::Words;
use sqlite_items::Items;
use std::alloc::Global;

/// The names of the parameters, the index arrays and the data arrays, each at its number.
#[derive(Drop)]
pub struct TreeNames {
    pub params: Items<Name>,
    pub tables: Items<Name>,
    pub arrays: Items<Name>,
}

/// The names by which numbers are printed: those that declarations give, and those of the variables in scope.
#[derive(Drop)]
pub struct Shown<'a> {
    pub alloc: Global,
    pub names: &'a TreeNames,
    pub vars: &'a Items<Name>,
}

/// Writes the name of this number, or an empty word where there is none.
pub fn push_name_at(words: &mut Words, names: &Items<Name>, number: u32) -> Result<(), NoMemory>
    ensures { OnOk result (words.new ≡ words.old ++ name_at names.now number ∷ []) }
{
    match names.get(number as usize) {
        Some(name) => words.push_name(name),
        None => words.push(b""),
    }
}

/// Puts a copy of the name behind the others.
pub fn copy_name(alloc: Global, names: &mut Items<Name>, name: &Name) -> Result<(), NoMemory>
    ensures { OnOk result (names.new ≡ names.old ++ name.now ∷ []) }
{
    names.push(Name::copy(alloc, name.bytes())?)?;
    Ok(())
}

/// Puts copies of more names behind the others.
pub fn copy_names(alloc: Global, names: &mut Items<Name>, more: &[Name]) -> Result<(), NoMemory>
    ensures { OnOk result (names.new ≡ names.old ++ more.now) }
{
    for name in more {
        copy_name(alloc, names, name)?;
    }
    Ok(())
}

fn copy_arrays(alloc: Global, names: &mut Items<Name>, arrays: &[DataDecl]) -> Result<(), NoMemory>
    ensures { OnOk result (names.new ≡ names.old ++ map (λ array. array.name) arrays.now) }
{
    for array in arrays {
        copy_name(alloc, names, &array.name)?;
    }
    Ok(())
}

fn declare(alloc: Global, names: &mut TreeNames, decl: &Decl) -> Result<(), NoMemory>
    ensures params { OnOk result (names.new.params ≡ names.old.params ++ params_of decl.now) }
    ensures tables { OnOk result (names.new.tables ≡ names.old.tables ++ tables_of decl.now) }
    ensures arrays { OnOk result (names.new.arrays ≡ names.old.arrays ++ arrays_of decl.now) }
{
    match decl {
        Decl::Params { names: params } => {
            copy_names(alloc, &mut names.params, params.as_slice())
        }
        Decl::Index { name, .. } => copy_name(alloc, &mut names.tables, name),
        Decl::Values { arrays } => copy_arrays(alloc, &mut names.arrays, arrays.as_slice()),
    }
}

/// The names that these declarations give. Linear in them.
pub fn names_of_tree(alloc: Global, decls: &Items<Decl>) -> Result<TreeNames, NoMemory>
    ensures { IfOk result (λ names. names ≡ names_in decls.now) }
{
    let mut names = TreeNames {
        params: Items::new(alloc),
        tables: Items::new(alloc),
        arrays: Items::new(alloc),
    };
    for decl in decls.as_slice() {
        declare(alloc, &mut names, decl)?;
    }
    Ok(names)
}
