//! How large the loops and arrays of a kernel are.

ghost use Rattle.std.specs.Prelude.{◌≡◌, ◌<◌, ◌≤◌, ◌*◌, ◌^◌, length, slice_get, take, Some};
ghost use Rattle.spf_space.specs.Layout.{AreAdjacent-prop, IsLayout, iterations};
ghost use Rattle.spf_space.specs.Units.{IsUnitOf, loops_units, units_of};
ghost use Rattle.std.proofs.Props.{props};

use crate::unit::Unit;
use spf_base::Name;
use sqlite_items::Items;

/// A loop: its name, its first iteration, and how many iterations it has.
#[derive(Drop)]
pub struct LoopShape {
    pub name: Name,
    pub lower: i64,
    pub extent: u32,
}

/// A data array: its name, the element at which it starts, and how many cells it has.
#[derive(Drop)]
pub struct ArrayShape {
    pub name: Name,
    pub start: u32,
    pub length: u32,
}

/// The number of steps, and the loops and data arrays by their numbers. There are at most 4,194,304 units.
#[derive(Drop)]
pub struct Shape {
    pub steps: u32,
    pub loops: Items<LoopShape>,
    pub arrays: Items<ArrayShape>,
    ghost layout: { IsLayout steps loops arrays } by { Prim.hlevel (props, AreAdjacent-prop) },
}

impl Shape {
    /// The shape with these steps, loops and arrays. It takes no memory.
    pub fn new(steps: u32, loops: Items<LoopShape>, arrays: Items<ArrayShape>) -> Shape
        requires { IsLayout steps loops arrays }
        ensures steps { result.steps ≡ steps }
        ensures loops { result.loops ≡ loops }
        ensures arrays { result.arrays ≡ arrays }
    {
        Shape {
            steps,
            loops,
            arrays,
        }
    }

    /// How many iterations one step has. Linear in the loops.
    pub fn per_step(&self) -> u32
        ensures { result ≡ iterations self.now.loops }
    {
        extents(self.loops.as_slice())
    }

    /// How many iterations of a step stand before those of this loop. Linear in the loops.
    pub fn before(&self, loop_no: u32) -> u32
        requires { loop_no ≤ length self.now.loops }
        ensures { result ≡ iterations (take loop_no self.now.loops) }
    {
        extents(&self.loops.as_slice()[..loop_no as usize])
    }

    /// How many units there are. Linear in the loops.
    #[tactic(auto, using(crate::proofs::Standing::units_length))]
    pub fn units(&self) -> u32
        ensures count { result ≡ length (units_of self.now.steps self.now.loops) }
        ensures product { result ≡ self.now.steps * iterations self.now.loops }
    {
        self.steps * self.per_step()
    }

    /// The unit's place among all units in textual order. Linear in the loops.
    pub fn ordinal(&self, unit: &Unit) -> u32
        requires { IsUnitOf self.now.steps self.now.loops unit.now }
        ensures { slice_get (units_of self.now.steps self.now.loops) result ≡ Some unit.now }
    {
        let before = self.before(unit.loop_no);
        unit.step * self.per_step() + before + unit.position
    }

    /// The unit at this place among all units in textual order. Linear in the loops.
    #[tactic(auto, using(crate::proofs::Textual::split_is_within, crate::proofs::Textual::split_stands))]
    pub fn split(&self, ordinal: u32) -> Unit
        requires { ordinal < length (units_of self.now.steps self.now.loops) }
        ensures { slice_get (units_of self.now.steps self.now.loops) ordinal ≡ Some result }
    {
        let per_step = self.per_step();
        unit_in_step(
            self.loops.as_slice(),
            ordinal / per_step,
            ordinal % per_step,
        )
    }
}

/// How many iterations these loops have together.
fn extents(loops: &[LoopShape]) -> u32
    requires { iterations loops.now < 2 ^ 32 }
    ensures { result ≡ iterations loops.now }
{
    loops.iter().map(|each| each.extent).sum()
}

/// The unit at this place among those of one step of these loops.
fn unit_in_step(loops: &[LoopShape], step: u32, place: u32) -> Unit
    requires few { length loops.now < 2 ^ 32 }
    requires within { place < iterations loops.now }
    ensures { slice_get (loops_units step 0 loops.now) place ≡ Some result }
{
    let mut position = place;
    for (loop_no, each) in loops.iter().enumerate() {
        if position < each.extent {
            return Unit {
                step,
                loop_no: loop_no as u32,
                position,
            };
        }
        position -= each.extent;
    }
    unreachable!()
}
