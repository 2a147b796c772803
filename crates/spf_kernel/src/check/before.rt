//! What the rules ask of the facts before one.

ghost use Rattle.std.specs.Prelude.{◌≡◌, ◌^◌, ◌||◌, List, [], ◌∷◌, ◌++◌, OnErr, OnOk};
ghost use Rattle.std.specs.List.{list_any};
ghost use Rattle.std.specs.Str.{bytes_eq};
ghost use Rattle.spf_lex.specs.Tokens.{texts};
ghost use Rattle.spf_kernel.specs.Facts.{Fact, fact_of};
ghost use Rattle.spf_kernel.specs.check.Before.{IsBelow, before_of};

use crate::check::counts::Counts;
use crate::check::names::{NameSet, text_of};
use crate::note::{Note, Says, Sort};
use spf_base::NoMemory;
use spf_lex::Tokens;
use std::alloc::Global;

/// What the rules ask of the facts before one: how many have which role, and which names they declare.
#[derive(Drop)]
pub(crate) struct Before<'a> {
    pub counts: Counts,
    pub params: NameSet<'a>,
    pub tables: NameSet<'a>,
    pub data_arrays: NameSet<'a>,
    pub loops: NameSet<'a>,
}

impl<'a> Before<'a> {
    /// What stands before the first fact.
    #[tactic(auto, unfolding(crate::specs::check::Before::before_of, crate::specs::check::Before::once))]
    pub(crate) fn new(alloc: Global) -> Before<'a>
        ensures { result ≡ before_of [] }
    {
        Before {
            counts: Counts::new(),
            params: NameSet::new(alloc),
            tables: NameSet::new(alloc),
            data_arrays: NameSet::new(alloc),
            loops: NameSet::new(alloc),
        }
    }

    /// Whether the name was declared. Linear in it on average.
    pub(crate) fn declares(&self, name: &[u8]) -> bool
        ensures { result ≡ (list_any (bytes_eq name.now) self.now.params || (list_any (bytes_eq name.now) self.now.tables || (list_any (bytes_eq name.now) self.now.data_arrays || list_any (bytes_eq name.now) self.now.loops))) }
    {
        self.params.contains(name)
            || self.tables.contains(name)
            || self.data_arrays.contains(name)
            || self.loops.contains(name)
    }

    /// Takes the fact to those before. Linear in its name on average. Where memory runs out, the names are as before.
    pub(crate) fn add(&mut self, tokens: &'a Tokens, note: &Note) -> Result<(), NoMemory>
        requires { IsBelow (2 ^ 63) self.old.counts }
        ensures added { OnOk result ((before : List Fact) → self.old ≡ before_of before → self.new ≡ before_of (before ++ fact_of (texts tokens.now) note.now ∷ [])) }
        ensures kept { OnErr result (self.old ≡ record { counts = self.old.counts; params = self.new.params; tables = self.new.tables; data_arrays = self.new.data_arrays; loops = self.new.loops }) }
    {
        self.counts.add(note);
        let name = text_of(tokens, note.token);
        match note.says {
            Says::Declared(Sort::Param) => self.params.insert(name),
            Says::Declared(Sort::Index) => self.tables.insert(name),
            Says::Declared(Sort::Data) => self.data_arrays.insert(name),
            Says::Declared(Sort::Loop) => self.loops.insert(name),
            _ => Ok(()),
        }
    }
}
