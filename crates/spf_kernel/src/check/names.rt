//! The names that a kernel declares, and the numbers that they get.

ghost use Rattle.std.specs.Prelude.{◌≡◌, ◌≤◌, [], length, OnErr, OnOk};
ghost use Rattle.std.specs.List.{list_any, position_or_len};
ghost use Rattle.std.specs.Str.{bytes_eq};
ghost use Rattle.indexmap.specs.IndexSet.{insert_key};
ghost use Rattle.spf_lex.specs.Tokens.{texts};
ghost use Rattle.spf_kernel.specs.Facts.{text_of};

use indexmap::IndexSet;
use spf_base::NoMemory;
use spf_lex::{Token, Tokens};
use std::alloc::Global;
use std::marker::Model;

/// The text of a token, which is empty where there is no such token.
pub(crate) fn text_of<'a>(tokens: &'a Tokens, token: Token) -> &'a [u8]
    ensures { result.now ≡ text_of (texts tokens.now) token }
{
    if token.at < tokens.len() {
        tokens.text(token.at)
    } else {
        &[]
    }
}

/// Names of one sort, each once, in the order in which they came.
#[derive(Drop)]
pub(crate) struct NameSet<'a> {
    names: IndexSet<&'a [u8]>,
}

impl<'a> Model for NameSet<'a> {
    ghost use Rattle.std.specs.Prelude.{ℕ, List, map};

    ghost Value = { List (List ℕ) };

    ghost view = { λ set. map (λ name. name.now) set.names.keys };
}

impl<'a> NameSet<'a> {
    pub(crate) fn new(alloc: Global) -> NameSet<'a>
        ensures { result ≡ [] }
    {
        NameSet {
            names: IndexSet::new(alloc),
        }
    }

    /// Whether the name is among them. Linear in the name on average.
    pub(crate) fn contains(&self, name: &[u8]) -> bool
        ensures { result ≡ list_any (bytes_eq name.now) self.now }
    {
        self.names.contains(&name)
    }

    /// How many names stand before this one. Linear in the name on average.
    pub(crate) fn number(&self, name: &[u8]) -> usize
        ensures number { result ≡ position_or_len (bytes_eq name.now) self.now }
        ensures within { result ≤ length self.now }
    {
        self.names.get_index_of(&name).unwrap_or(self.names.len())
    }

    /// Adds the name behind the others, if it isn't among them. Linear in the name on average.
    pub(crate) fn insert(&mut self, name: &'a [u8]) -> Result<(), NoMemory>
        ensures inserted { OnOk result (self.new ≡ insert_key bytes_eq self.old name.now) }
        ensures unchanged { OnErr result (self.new ≡ self.old) }
    {
        match self.names.insert(name) {
            Ok(_) => Ok(()),
            Err(_) => Err(NoMemory),
        }
    }
}

/// The declared names of a kernel, at most 64 of each sort.
#[derive(Drop)]
pub struct Names<'a> {
    pub params: &'a NameSet<'a>,
    pub tables: &'a NameSet<'a>,
    pub data_arrays: &'a NameSet<'a>,
}

impl<'a> Model for Names<'a> {
    ghost use Rattle.spf_kernel.specs.Names.{Names as Declared, IsShort};

    ghost Value = { Declared };

    ghost view = { λ names. record { params = names.params.now; tables = names.tables.now; data_arrays = names.data_arrays.now } };

    ghost invariant = { λ names. IsShort (record { params = names.params.now; tables = names.tables.now; data_arrays = names.data_arrays.now }) };
}

impl<'a> Names<'a> {
    ghost use Rattle.spf_kernel.specs.Names.{number_of};

    /// The number of a parameter, from 0, or how many there are. Linear in the name on average.
    pub fn param(&self, name: &[u8]) -> u32
        ensures { result ≡ number_of self.now.params name.now }
    {
        self.params.number(name) as u32
    }

    /// The number of an index array, from 0, or how many there are. Linear in the name on average.
    pub fn table(&self, name: &[u8]) -> u32
        ensures { result ≡ number_of self.now.tables name.now }
    {
        self.tables.number(name) as u32
    }

    /// The number of a data array, from 0, or how many there are. Linear in the name on average.
    pub fn data_array(&self, name: &[u8]) -> u32
        ensures { result ≡ number_of self.now.data_arrays name.now }
    {
        self.data_arrays.number(name) as u32
    }

    /// Whether this is a data array's name. Linear in the name on average.
    pub fn has_data(&self, name: &[u8]) -> bool
        ensures { result ≡ list_any (bytes_eq name.now) self.now.data_arrays }
    {
        self.data_arrays.contains(name)
    }
}

/// What a raw tree is resolved by: the tokens that its names are, and the names that are declared.
#[derive(Drop)]
pub(crate) struct Source<'a> {
    pub alloc: Global,
    pub tokens: &'a Tokens<'a>,
    pub names: &'a Names<'a>,
}
