//! Groups that lie flat.

ghost use Rattle.std.specs.Prelude.{◌≡◌, ◌+◌, ◌<◌, ◌≤◌, ◌^◌, [], ◌∷◌, ◌++◌, ◌↔◌, IfOk, IsTrue, OnOk, drop, length, take, true};
ghost use Rattle.spf_touch.specs.Conflict.{is_shared};
ghost use Rattle.spf_layers.specs.Flat.{AreRows, behind, groups_in, joined_last, joins};

use spf_base::NoMemory;
use spf_touch::Class;
use std::alloc::Global;

/// The units of all groups, where each group ends, and its class.
#[derive(Drop)]
pub(crate) struct Rows {
    pub(crate) units: Vec<u32>,
    pub(crate) ends: Vec<u32>,
    pub(crate) classes: Vec<Class>,
}

/// Whether units of these classes may stand in one group.
pub(crate) fn shared(one: Class, other: Class) -> bool
    ensures { result ≡ is_shared one other }
{
    matches!(
        (one, other),
        (Class::Read, Class::Read) | (Class::Add, Class::Add)
    )
}

/// Whether a unit of this class joins the last group, if that one isn't before `start`.
fn joins_last(classes: &[Class], start: usize, class: Class) -> bool
    ensures { result ≡ joins classes.now start class }
{
    start < classes.len() && shared(classes[classes.len() - 1], class)
}

impl Rows {
    /// No group yet, and room for so many units and groups.
    pub(crate) fn new(alloc: Global, units: usize, groups: usize) -> Result<Rows, NoMemory>
        ensures { IfOk result (λ rows. AreRows rows × (groups_in rows ≡ [])) }
    {
        Ok(Rows {
            units: Vec::with_capacity(alloc, units)?,
            ends: Vec::with_capacity(alloc, groups)?,
            classes: Vec::with_capacity(alloc, groups)?,
        })
    }

    /// Puts a unit behind the others, where the first group that it may join is that of number `start`.
    pub(crate) fn place(&mut self, start: usize, unit: u32, class: Class) -> Result<(), NoMemory>
        requires flat { AreRows self.old }
        requires start { start ≤ length self.old.classes.items }
        ensures flat { OnOk result (AreRows self.new) }
        ensures placed { OnOk result (groups_in self.new ≡ take start (groups_in self.old) ++ behind unit class (drop start (groups_in self.old))) }
    {
        if self.units.len() >= u32::MAX as usize {
            return Err(NoMemory);
        }
        if joins_last(self.classes.as_slice(), start, class) {
            self.join(unit)
        } else {
            self.open(unit, class)
        }
    }

    /// Puts a unit into the last group.
    fn join(&mut self, unit: u32) -> Result<(), NoMemory>
        requires flat { AreRows self.old }
        requires room { length self.old.units.items + 1 < 2 ^ 32 }
        requires some { 0 < length self.old.classes.items }
        ensures flat { OnOk result (AreRows self.new) }
        ensures joined { OnOk result (groups_in self.new ≡ joined_last unit (groups_in self.old)) }
    {
        self.units.push(unit)?;
        let last = self.ends.len() - 1;
        self.ends[last] = self.units.len() as u32;
        Ok(())
    }

    /// Puts a unit into a group of its own.
    fn open(&mut self, unit: u32, class: Class) -> Result<(), NoMemory>
        requires flat { AreRows self.old }
        requires room { length self.old.units.items + 1 < 2 ^ 32 }
        ensures flat { OnOk result (AreRows self.new) }
        ensures opened { OnOk result (groups_in self.new ≡ groups_in self.old ++ record { class = class; units = unit ∷ [] } ∷ []) }
    {
        self.units.push(unit)?;
        self.ends.push(self.units.len() as u32)?;
        self.classes.push(class)?;
        Ok(())
    }
}
