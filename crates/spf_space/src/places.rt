//! Where units are run.

ghost use Rattle.std.specs.Prelude.{◌≡◌, ◌<◌, ◌↔◌, ℕ, List, IsTrue, length};
ghost use Rattle.spf_space.specs.Places.{ArePlacesOf, IsBelow, moved, number_of, order_of, place_of};
ghost use Rattle.spf_space.specs.Units.{units_of};
ghost use Rattle.spf_space.specs.declared.shape.LoopShape.{LoopShape};

use crate::shape::Shape;
use crate::unit::Unit;
use spf_perm::Perm;
use sqlite_items::Items;

/// The tile of each unit, by its ordinal, and for each loop the new position of each source position. Units are run by tile,
/// then by step, loop and new position.
#[derive(Drop)]
pub struct Places {
    pub tiles: Items<u32>,
    pub orders: Items<Perm>,
}

impl Places {
    /// Whether unit `u` is run before unit `v`, both by their ordinals. Linear in the loops.
    pub fn earlier(&self, shape: &Shape, u: u32, v: u32) -> bool
        requires places { ArePlacesOf shape.now.steps shape.now.loops self.now.tiles self.now.orders }
        requires first { u < length (units_of shape.now.steps shape.now.loops) }
        requires second { v < length (units_of shape.now.steps shape.now.loops) }
        ensures { IsTrue result ↔ IsBelow (place_of shape.now.steps shape.now.loops self.now.tiles self.now.orders u)
            (place_of shape.now.steps shape.now.loops self.now.tiles self.now.orders v) }
    {
        self.number(shape, u) < self.number(shape, v)
    }

    /// The number by which the place of the unit of this ordinal is compared: a unit is run before another exactly where its
    /// number is the lesser (`numbers_are_places`). It is below 2^54. Linear in the loops.
    pub fn number(&self, shape: &Shape, u: u32) -> u64
        requires places { ArePlacesOf shape.now.steps shape.now.loops self.now.tiles self.now.orders }
        requires unit { u < length (units_of shape.now.steps shape.now.loops) }
        ensures { result ≡ number_of shape.now.steps shape.now.loops self.now.tiles self.now.orders u }
    {
        let turn = self.turn(&shape.split(u));
        let tile = self.tiles.as_slice()[u as usize];
        u64::from(tile) * u64::from(shape.units()) + u64::from(shape.ordinal(&turn))
    }

    /// The unit of the source order in whose turn this one is run.
    fn turn(&self, unit: &Unit) -> Unit
        requires there { unit.now.loop_no < length self.now.orders }
        requires position { unit.now.position < length (order_of self.now.orders unit.now.loop_no) }
        ensures { result ≡ moved self.now.orders unit.now }
    {
        let order = &self.orders.as_slice()[unit.loop_no as usize];
        Unit {
            step: unit.step,
            loop_no: unit.loop_no,
            position: order.at(unit.position),
        }
    }
}

/// Law: a unit's place is below another's exactly where its number is the lesser, and no two units have one number.
pub fn numbers_are_places()
    ensures below { (steps : ℕ) (loops : List LoopShape) (tiles : List ℕ) (orders : List (List ℕ)) (u v : ℕ) → ArePlacesOf steps loops tiles orders →
        u < length (units_of steps loops) → v < length (units_of steps loops) →
        (number_of steps loops tiles orders u < number_of steps loops tiles orders v) ↔ IsBelow (place_of steps loops tiles orders u) (place_of steps loops tiles orders v) }
    ensures one { (steps : ℕ) (loops : List LoopShape) (tiles : List ℕ) (orders : List (List ℕ)) (u v : ℕ) → ArePlacesOf steps loops tiles orders →
        u < length (units_of steps loops) → v < length (units_of steps loops) → number_of steps loops tiles orders u ≡ number_of steps loops tiles orders v → u ≡ v }
{}
