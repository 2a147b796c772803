//! Names that are numbered in the order in which they came.

ghost use Rattle.std.specs.Prelude.{◌≡◌, [], length, take, slice_get, option_map, OnOk, OnErr, IfOk};
ghost use Rattle.spf_reltext.specs.Names.{inserted, number_of};

use crate::names::number;
use indexmap::IndexSet;
use spf_base::{Name, NoMemory};
use std::alloc::Global;
use std::marker::Model;

/// Names, each once, in the order in which they came. The number of a name is found by its hash.
#[derive(Drop)]
pub struct NameSet {
    names: IndexSet<Vec<u8>>,
}

impl Model for NameSet {
    ghost use Rattle.std.specs.Prelude.{ℕ, List, map};

    ghost Value = { List (List ℕ) };

    ghost view = { λ set. map (λ name. name.items) set.names.keys };
}

impl NameSet {
    pub(crate) fn new(alloc: Global) -> NameSet
        ensures { result ≡ [] }
    {
        NameSet {
            names: IndexSet::new(alloc),
        }
    }

    pub fn len(&self) -> usize
        ensures { result ≡ length self.now }
    {
        self.names.len()
    }

    /// The name of this number.
    pub fn get(&self, number: u32) -> Option<&[u8]>
        ensures { option_map (λ name. name.now) result ≡ slice_get self.now number }
    {
        match self.names.get_index(number as usize) {
            Some(name) => Some(name.as_slice()),
            None => None,
        }
    }

    /// The number of a name, or how many there are. Linear in the name on average.
    pub(crate) fn number_of(&self, name: &Name) -> Result<u32, NoMemory>
        ensures { IfOk result (λ number. number ≡ number_of self.now name.now) }
    {
        let place = self.names.get_index_of(name.bytes());
        number(place.unwrap_or(self.names.len()))
    }

    /// Puts a copy of the name behind the others, where it isn't among them. Linear in the name on average.
    pub(crate) fn insert(&mut self, alloc: Global, name: &Name) -> Result<(), NoMemory>
        ensures inserted { OnOk result (self.new ≡ inserted self.old name.now) }
        ensures unchanged { OnErr result (self.new ≡ self.old) }
    {
        if self.names.contains(name.bytes()) {
            return Ok(());
        }
        let copy = Vec::from_slice(alloc, name.bytes())?;
        match self.names.insert(copy) {
            Ok(_) => Ok(()),
            Err(_) => Err(NoMemory),
        }
    }

    /// Keeps the first so many. Linear in those that go.
    pub(crate) fn truncate(&mut self, len: usize)
        ensures { self.new ≡ take len self.old }
    {
        self.names.truncate(len);
    }
}
