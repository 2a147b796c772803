//! The names by which the terms of a program are written.

ghost use Rattle.std.specs.Prelude.{◌≡◌, ◌∷◌, [], ◌++◌, codes, map, IfOk, OnOk};
ghost use Rattle.spf_kernel.specs.TreeNames.{arrays_of, name_at, names_in, params_of, tables_of};
ghost use Rattle.spf_emit.specs.Naming.{names_of, naming_of, order_name, packing_name, variable_text};

use crate::parts::push;
use spf_base::{Name, NoMemory};
use spf_kernel::tree::{DataDecl, Decl, Loop, Tree};
use spf_reltext::TermNames;
use sqlite_items::Items;
use std::alloc::Global;
use std::marker::Model;

/// A name of any length, seen as its bytes.
#[derive(Drop)]
pub(crate) struct Word {
    bytes: Vec<u8>,
}

impl Model for Word {
    ghost use Rattle.std.specs.Prelude.{List, ℕ};

    ghost Value = { List ℕ };

    ghost view = { λ word. word.bytes.items };
}

/// The names of parameters, functions and data arrays, each at its number.
#[derive(Drop)]
pub(crate) struct Names {
    pub params: Items<Word>,
    pub functions: Items<Word>,
    pub arrays: Items<Word>,
}

/// Writes the name of this number, or nothing where there is none.
pub(crate) fn push_name_at(
    text: &mut Vec<u8>,
    names: &Items<Word>,
    number: u32,
) -> Result<(), NoMemory>
    ensures { OnOk result (text.new.items ≡ text.old.items ++ name_at names.now number) }
{
    match names.get(number as usize) {
        Some(name) => push(text, name.bytes.as_slice()),
        None => Ok(()),
    }
}

impl TermNames for Names {
    ghost naming = { naming_of };

    fn push_variable(&self, text: &mut Vec<u8>, number: u32) -> Result<(), NoMemory> {
        push(text, if number == 0 { b"P" } else { b"J" })
    }

    fn push_param(&self, text: &mut Vec<u8>, number: u32) -> Result<(), NoMemory> {
        push_name_at(text, &self.params, number)
    }

    fn push_fun(&self, text: &mut Vec<u8>, number: u32) -> Result<(), NoMemory> {
        push_name_at(text, &self.functions, number)
    }
}

/// Adds a name behind this prefix.
fn add(alloc: Global, names: &mut Items<Word>, prefix: &[u8], name: &Name) -> Result<(), NoMemory>
    ensures { OnOk result (names.new ≡ names.old ++ (prefix.now ++ name.now) ∷ []) }
{
    let mut bytes = Vec::from_slice(alloc, prefix)?;
    push(&mut bytes, name.bytes())?;
    names.push(Word { bytes })?;
    Ok(())
}

fn add_params(alloc: Global, names: &mut Items<Word>, params: &[Name]) -> Result<(), NoMemory>
    ensures { OnOk result (names.new ≡ names.old ++ params.now) }
{
    for param in params {
        add(alloc, names, b"", param)?;
    }
    Ok(())
}

fn add_arrays(alloc: Global, names: &mut Items<Word>, arrays: &[DataDecl]) -> Result<(), NoMemory>
    ensures { OnOk result (names.new ≡ names.old ++ map (λ array. array.name) arrays.now) }
{
    for array in arrays {
        add(alloc, names, b"", &array.name)?;
    }
    Ok(())
}

/// Adds the names that this declaration gives.
fn declare(alloc: Global, names: &mut Names, decl: &Decl) -> Result<(), NoMemory>
    ensures params { OnOk result (names.new.params ≡ names.old.params ++ params_of decl.now) }
    ensures functions { OnOk result (names.new.functions ≡ names.old.functions ++ tables_of decl.now) }
    ensures arrays { OnOk result (names.new.arrays ≡ names.old.arrays ++ arrays_of decl.now) }
{
    match decl {
        Decl::Params { names: params } => add_params(alloc, &mut names.params, params.as_slice()),
        Decl::Index { name, .. } => add(alloc, &mut names.functions, b"", name),
        Decl::Values { arrays } => add_arrays(alloc, &mut names.arrays, arrays.as_slice()),
    }
}

/// The names that these declarations give, of which index arrays are functions.
fn declared(alloc: Global, decls: &[Decl]) -> Result<Names, NoMemory>
    ensures params { IfOk result (λ names. names.params ≡ (names_in decls.now).params) }
    ensures functions { IfOk result (λ names. names.functions ≡ (names_in decls.now).tables) }
    ensures arrays { IfOk result (λ names. names.arrays ≡ (names_in decls.now).arrays) }
{
    let mut names = Names {
        params: Items::new(alloc),
        functions: Items::new(alloc),
        arrays: Items::new(alloc),
    };
    for decl in decls {
        declare(alloc, &mut names, decl)?;
    }
    Ok(names)
}

fn add_orders(alloc: Global, names: &mut Items<Word>, loops: &[Loop]) -> Result<(), NoMemory>
    ensures { OnOk result (names.new ≡ names.old ++ map order_name loops.now) }
{
    for each in loops {
        add(alloc, names, b"O_", &each.name)?;
    }
    Ok(())
}

fn add_packings(alloc: Global, names: &mut Items<Word>, arrays: &[Word]) -> Result<(), NoMemory>
    ensures { OnOk result (names.new ≡ names.old ++ map packing_name arrays.now) }
{
    for array in arrays {
        let mut bytes = Vec::from_slice(alloc, b"R_")?;
        push(&mut bytes, array.bytes.as_slice())?;
        names.push(Word { bytes })?;
    }
    Ok(())
}

/// The names by which the terms of a program for this tree are written. Linear in the bytes of its names.
pub(crate) fn names_of(alloc: Global, tree: &Tree) -> Result<Names, NoMemory>
    ensures { IfOk result (λ names. names ≡ names_of tree.now) }
{
    let Names {
        params,
        mut functions,
        arrays,
    } = declared(alloc, tree.decls.as_slice())?;
    add_orders(alloc, &mut functions, tree.loops.as_slice())?;
    add_packings(alloc, &mut functions, arrays.as_slice())?;
    Ok(Names {
        params,
        functions,
        arrays,
    })
}
