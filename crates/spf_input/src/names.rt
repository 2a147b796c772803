//! Names that are looked up, and rules 1 to 3: each given name is declared and given once, and each declared one is given.

ghost use Rattle.std.specs.Prelude.{◌≡◌, ◌≤◌, ◌||◌, ℕ, [], List, length, map, flat_map, All, IfOk, OnOk};
ghost use Rattle.std.specs.List.{list_any, position_or_len};
ghost use Rattle.std.specs.Str.{bytes_eq};
ghost use Rattle.indexmap.specs.IndexSet.{insert_key};
ghost use Rattle.spf_base.specs.Word.{IsName};
ghost use Rattle.spf_lex.specs.Tokens.{texts};
ghost use Rattle.spf_kernel.specs.Facts.{text_of};
ghost use Rattle.spf_input.specs.Given.{given_at};
ghost use Rattle.spf_input.specs.Rules.{is_among, names_of, undeclared};
ghost use Rattle.spf_input.specs.Tested.{AreNamed, Tests};

use crate::entries::RawEntry;
use crate::fault::{InputFault, refused};
use indexmap::IndexSet;
use spf_base::{Name, NoMemory};
use spf_kernel::tree::{DataDecl, Decl, Tree};
use spf_lex::{Token, Tokens};
use std::alloc::Global;
use std::marker::Model;

/// The text of a token, which is empty where there is no such token.
pub(crate) fn text_of<'a>(tokens: &'a Tokens, token: Token) -> &'a [u8]
    ensures { result.now ≡ text_of (texts tokens.now) token }
{
    if token.at < tokens.len() {
        tokens.text(token.at)
    } else {
        &[]
    }
}

/// Names, each once, in the order in which they came.
#[derive(Drop)]
pub(crate) struct NameSet<'a> {
    names: IndexSet<&'a [u8]>,
}

impl<'a> Model for NameSet<'a> {
    ghost use Rattle.std.specs.Prelude.{ℕ, List, map};

    ghost Value = { List (List ℕ) };

    ghost view = { λ set. map (λ name. name.now) set.names.keys };
}

impl<'a> NameSet<'a> {
    pub(crate) fn new(alloc: Global) -> NameSet<'a>
        ensures { result ≡ [] }
    {
        NameSet {
            names: IndexSet::new(alloc),
        }
    }

    /// Whether the name is among them. Linear in the name on average.
    pub(crate) fn contains(&self, name: &[u8]) -> bool
        ensures { result ≡ is_among self.now name.now }
    {
        self.names.contains(&name)
    }

    /// How many names stand before this one. Linear in the name on average.
    pub(crate) fn number(&self, name: &[u8]) -> usize
        ensures number { result ≡ position_or_len (bytes_eq name.now) self.now }
        ensures within { result ≤ length self.now }
    {
        self.names.get_index_of(&name).unwrap_or(self.names.len())
    }

    /// Adds the name behind the others, if it isn't among them. Linear in the name on average.
    pub(crate) fn insert(&mut self, name: &'a [u8]) -> Result<(), NoMemory>
        ensures { OnOk result (self.new ≡ insert_key bytes_eq self.old name.now) }
    {
        match self.names.insert(name) {
            Ok(_) => Ok(()),
            Err(_) => Err(NoMemory),
        }
    }
}

/// Adds names, those of parameters.
fn add_names<'a>(set: &mut NameSet<'a>, names: &'a [Name]) -> Result<(), NoMemory>
    ensures { OnOk result ((name : List ℕ) → is_among set.new name ≡ (is_among set.old name || is_among names.now name)) }
{
    for name in names {
        set.insert(name.bytes())?;
    }
    Ok(())
}

/// Adds the names of data arrays.
fn add_arrays<'a>(set: &mut NameSet<'a>, arrays: &'a [DataDecl]) -> Result<(), NoMemory>
    ensures { OnOk result ((name : List ℕ) → is_among set.new name ≡ (is_among set.old name || is_among (map (λ array. array.name) arrays.now) name)) }
{
    for array in arrays {
        set.insert(array.name.bytes())?;
    }
    Ok(())
}

/// Adds the names that a declaration gives.
fn declare<'a>(set: &mut NameSet<'a>, decl: &'a Decl) -> Result<(), NoMemory>
    ensures { OnOk result ((name : List ℕ) → is_among set.new name ≡ (is_among set.old name || is_among (names_of decl.now) name)) }
{
    match decl {
        Decl::Params { names } => add_names(set, names.as_slice()),
        Decl::Index { name, .. } => set.insert(name.bytes()),
        Decl::Values { arrays } => add_arrays(set, arrays.as_slice()),
    }
}

/// The declared names. Linear in them.
pub(crate) fn declared_names<'a>(alloc: Global, decls: &'a [Decl]) -> Result<NameSet<'a>, NoMemory>
    ensures { IfOk result (λ set. (name : List ℕ) → is_among set name ≡ is_among (flat_map names_of decls.now) name) }
{
    let mut set = NameSet::new(alloc);
    for decl in decls {
        declare(&mut set, decl)?;
    }
    Ok(set)
}

/// Rule 1: each given name is declared. Linear in the names on average.
pub(crate) fn test_declared(
    alloc: Global,
    tree: &Tree,
    tokens: &Tokens,
    entries: &[RawEntry],
) -> Result<(), InputFault>
    requires { AreNamed (texts tokens.now) entries.now }
    ensures { Tests 1 (undeclared tree.now (map (given_at (texts tokens.now)) entries.now)) result }
{
    let declared = declared_names(alloc, tree.decls.as_slice())?;
    for entry in entries {
        let name = text_of(&*tokens, entry.name);
        if !declared.contains(name) {
            return Err(refused(alloc, name, 0, 1));
        }
    }
    Ok(())
}
