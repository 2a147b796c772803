//! Literals that stand in a greater text: their shape, the rules that they break, their names, and what they mean.

ghost use Rattle.std.specs.Prelude.{◌≡◌, true, false, OnOk, IfOk};
ghost use Rattle.std.specs.List.{list_any};
ghost use Rattle.spf_rel.specs.Meaning.{IsFormedRel, IsFormedSet};
ghost use Rattle.spf_reltext.specs.Names.{names_of};
ghost use Rattle.spf_reltext.specs.Resolved.{rel_of, set_of};
ghost use Rattle.spf_reltext.specs.Rules.{breaks_limits, breaks_names, differ, is_wanted, shape_of_all};
ghost use Rattle.spf_reltext.specs.declared.rules.Wanted.TheVariants as wanted;

use crate::literal::Literals;
use crate::meaning::{rel_of, set_of};
use crate::names::{RelNames, note_literals};
use crate::rules::{Shape, any_breaks_limits, any_breaks_names, differ, shape_of_all};
use spf_base::NoMemory;
use spf_rel::{Rel, Set};
use std::alloc::Global;

impl Literals {
    /// The shape of the first literal.
    pub fn shape(&self) -> Shape
        ensures { result ≡ shape_of_all self.now.list }
    {
        shape_of_all(self.list.as_slice())
    }

    /// Whether a literal has another shape than the first. Linear in the literals.
    pub fn is_uneven(&self) -> bool
        ensures { result ≡ differ (shape_of_all self.now.list) self.now.list }
    {
        differ(self.shape(), self.list.as_slice())
    }

    /// Whether some literal breaks rule 23.
    pub fn breaks_names(&self, alloc: Global) -> Result<bool, NoMemory>
        ensures { IfOk result (λ broken. broken ≡ list_any breaks_names self.now.list) }
    {
        any_breaks_names(alloc, self.list.as_slice())
    }

    /// Whether some literal breaks rule 24. Linear in the literals.
    pub fn breaks_limits(&self, alloc: Global) -> Result<bool, NoMemory>
        ensures { IfOk result (λ broken. broken ≡ list_any breaks_limits self.now.list) }
    {
        any_breaks_limits(alloc, self.list.as_slice())
    }

    /// Puts the names that the literals use first behind the others.
    pub fn number_names(&self, alloc: Global, names: &mut RelNames) -> Result<(), NoMemory>
        ensures { OnOk result (names.new ≡ names_of names.old self.now.list) }
    {
        note_literals(alloc, names, self.list.as_slice())
    }

    /// The relation that the literals mean, which have one shape and break no limit.
    #[tactic(auto, using(crate::proofs::Formed::rel_formed_by))]
    pub fn to_rel(&self, alloc: Global, names: &RelNames) -> Result<Rel, NoMemory>
        requires even { differ (shape_of_all self.now.list) self.now.list ≡ false }
        requires limits { list_any breaks_limits self.now.list ≡ false }
        ensures means { IfOk result (λ rel. rel ≡ rel_of names.now self.now.list) }
        ensures formed { IfOk result (λ rel. IsFormedRel rel) }
    {
        rel_of(alloc, names, self.list.as_slice())
    }

    /// The set that the literals mean, which have one shape, that of a set, and break no limit.
    #[tactic(auto, using(crate::proofs::Formed::set_formed_by))]
    pub fn to_set(&self, alloc: Global, names: &RelNames) -> Result<Set, NoMemory>
        requires points { is_wanted wanted.Set (shape_of_all self.now.list) ≡ true }
        requires even { differ (shape_of_all self.now.list) self.now.list ≡ false }
        requires limits { list_any breaks_limits self.now.list ≡ false }
        ensures means { IfOk result (λ set. set ≡ set_of names.now self.now.list) }
        ensures formed { IfOk result (λ set. IsFormedSet set) }
    {
        set_of(alloc, names, self.list.as_slice())
    }
}
