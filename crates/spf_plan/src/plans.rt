//! Plans, and taking a step.

ghost use Rattle.std.specs.Prelude.{◌≡◌, ◌<◌, ℕ, true, IfOk, OnErr, Some, length, slice_get};
ghost use Rattle.spf_perm.specs.Perm.{IsPerm};
ghost use Rattle.spf_touch.specs.Frame.{IsTouched};
ghost use Rattle.spf_touch.specs.Repeated.{touches_at};
ghost use Rattle.spf_script.specs.Resolved.{AreAlike, IsStepFor, is_tiling};
ghost use Rattle.spf_script.specs.declared.resolved.Step.TheVariants.{Tile};
ghost use Rattle.spf_space.specs.Layout.{cells_in, iterations};
ghost use Rattle.spf_space.specs.Places.{order_of};
ghost use Rattle.spf_plan.specs.Packed.{IsOrderFor, IsPackingBy, places_of};
ghost use Rattle.spf_plan.specs.Planned.{IsPlanOf, pack_of, source_plan};
ghost use Rattle.spf_plan.specs.Taken.{BelongTogether, Reorders, Takes, TakesPacks, TakesTile};

use crate::packing::{TouchOrder, mark, next_packs};
use crate::plan_fault::PlanFault;
use crate::reorder::try_order;
use crate::source::{own_places, source_orders};
use crate::tiling::{Tiling, grown_tiles};
use spf_base::NoMemory;
use spf_group::{bucket, lexgroup, lexsort};
use spf_layers::Layers;
use spf_perm::Perm;
use spf_script::Step;
use spf_space::{Places, Shape};
use spf_touch::Touches;
use sqlite_items::Items;
use std::alloc::Global;
use std::marker::Model;

/// Where units are run, how arrays are packed, and what was moved, seen as a record of lists. It takes 4 bytes for each unit,
/// for each iteration of a step and for each cell.
#[derive(Drop)]
pub struct Plan {
    places: Places,
    packs: Items<Perm>,
    tiles: u32,
    moved_loops: Items<bool>,
    moved_arrays: Items<bool>,
}

impl Model for Plan {
    ghost use Rattle.spf_plan.specs.Planned.{Planned};

    ghost Value = { Planned };

    ghost view = { λ plan. record { tiles = plan.places.tiles; orders = plan.places.orders; packs = plan.packs; count = plan.tiles; moved_loops = plan.moved_loops; moved_arrays = plan.moved_arrays } };
}

impl Plan {
    /// The source order in one tile. Linear in the units and the cells.
    pub fn source(
        alloc: Global,
        layers: &Layers,
        touches: &Touches,
        shape: &Shape,
    ) -> Result<Plan, NoMemory>
        requires { BelongTogether layers.now touches.now shape.now }
        ensures source { IfOk result (λ plan. plan ≡ source_plan shape.now) }
        ensures plan { IfOk result (IsPlanOf touches.now shape.now) }
    {
        Plan::of_shape(alloc, shape)
    }

    fn of_shape(alloc: Global, shape: &Shape) -> Result<Plan, NoMemory>
        ensures { IfOk result (λ plan. plan ≡ source_plan shape.now) }
    {
        let tiles = vec![in alloc; 0; shape.units() as usize]?;
        let loops = shape.loops.as_slice();
        let arrays = shape.arrays.as_slice();
        let orders = source_orders(alloc, loops)?;
        let packs = own_places(alloc, arrays)?;
        let moved_loops = vec![in alloc; false; loops.len()]?;
        let moved_arrays = vec![in alloc; false; arrays.len()]?;
        Ok(Plan {
            places: Places {
                tiles: Items::from_vec(tiles),
                orders,
            },
            packs,
            tiles: 1,
            moved_loops: Items::from_vec(moved_loops),
            moved_arrays: Items::from_vec(moved_arrays),
        })
    }

    /// Takes the step of this number, counted from 1. After a refusal, and for want of memory, the plan is as before. An order
    /// costs a sort of the loop's positions, a copy of its old order, and a pass over the touches of all units. A tiling costs
    /// its seed, which for `spread` sorts the touches of the loop, and two passes over the touches of all units; a seed that
    /// sees 2^32 elements or more is told as want of memory. A packing costs, for each listed array, a pass over the touches of
    /// the loop or of all units at a cost that is linear in the listed arrays, and for all units a sort of them; the packings of
    /// the other arrays are copied.
    pub fn step(
        &mut self,
        alloc: Global,
        layers: &Layers,
        touches: &Touches,
        shape: &Shape,
        number: u32,
        step: &Step,
    ) -> Result<(), PlanFault>
        requires parts { BelongTogether layers.now touches.now shape.now }
        requires plan { IsPlanOf touches.now shape.now self.old }
        requires step { IsStepFor shape.now 0 step.now }
        requires once { is_tiling step.now ≡ true → self.old.count ≡ 1 }
        ensures takes { Takes touches.now shape.now number self.old result self.new step.now }
        ensures plan { IsPlanOf touches.now shape.now self.new }
        ensures refused { OnErr result (self.new ≡ self.old) }
    {
        match step {
            Step::LexGroup { of, by } => {
                let old = self.order(*of);
                let now = self.pack(*by);
                let order = lexgroup(alloc, touches, shape, *of, *by, old, now)?;
                self.reorder(alloc, layers, touches, shape, number, *of, order)
            }
            Step::LexSort { of, by } => {
                let old = self.order(*of);
                let now = self.pack(*by);
                let order = lexsort(alloc, touches, shape, *of, *by, old, now)?;
                self.reorder(alloc, layers, touches, shape, number, *of, order)
            }
            Step::Bucket { of, by, size } => {
                let old = self.order(*of);
                let now = self.pack(*by);
                let order = bucket(alloc, touches, shape, *of, *by, old, now, *size)?;
                self.reorder(alloc, layers, touches, shape, number, *of, order)
            }
            Step::Tile {
                of,
                step,
                seed,
                parts,
            } => {
                let tiling = Tiling {
                    of: *of,
                    step: *step,
                    seed: *seed,
                    parts: *parts,
                };
                self.tile(alloc, touches, shape, number, tiling)
            }
            Step::Cpack { arrays, by } => {
                let order = TouchOrder::Loop { by: *by };
                self.pack_arrays(alloc, touches, shape, order, arrays.as_slice())
            }
            Step::TilePack { arrays } => {
                let order = TouchOrder::Tiles;
                self.pack_arrays(alloc, touches, shape, order, arrays.as_slice())
            }
        }
    }

    /// Gives the loop this order and marks it as moved, if that reverses no two conflicting units.
    fn reorder(
        &mut self,
        alloc: Global,
        layers: &Layers,
        touches: &Touches,
        shape: &Shape,
        number: u32,
        of: u32,
        order: Perm,
    ) -> Result<(), PlanFault>
        requires parts { BelongTogether layers.now touches.now shape.now }
        requires plan { IsPlanOf touches.now shape.now self.old }
        requires there { of < length shape.now.loops }
        requires positions { length order ≡ length (order_of self.old.orders of) }
        ensures perm { IsPerm order }
        ensures reorders { Reorders touches.now shape.now number of order self.old result self.new }
        ensures plan { IsPlanOf touches.now shape.now self.new }
    {
        match try_order(alloc, layers, touches, shape, &mut self.places, of, order)? {
            None => {
                self.moved_loops.set(of as usize, true);
                Ok(())
            }
            Some((p, q)) => Err(PlanFault::Illegal { step: number, p, q }),
        }
    }

    /// Gives the units the tiles that grow from the seed, if it doesn't fall.
    fn tile(
        &mut self,
        alloc: Global,
        touches: &Touches,
        shape: &Shape,
        number: u32,
        tiling: Tiling,
    ) -> Result<(), PlanFault>
        requires lists { length touches.now ≡ iterations shape.now.loops }
        requires inside { (u e : ℕ) → IsTouched (touches_at touches.now u) e → e < cells_in shape.now.arrays }
        requires plan { IsPlanOf touches.now shape.now self.old }
        requires step { IsStepFor shape.now 0 (Tile tiling.of tiling.step tiling.seed tiling.parts) }
        requires once { self.old.count ≡ 1 }
        ensures tiles { TakesTile touches.now shape.now number tiling.of tiling.step tiling.seed tiling.parts self.old result self.new }
        ensures plan { IsPlanOf touches.now shape.now self.new }
    {
        match grown_tiles(alloc, touches, shape, number, self.order(tiling.of), tiling) {
            Ok(tiles) => {
                self.places.tiles = Items::from_vec(tiles);
                self.tiles = tiling.parts;
                Ok(())
            }
            Err(fault) => Err(fault),
        }
    }

    /// Packs the listed arrays and marks them as moved.
    fn pack_arrays(
        &mut self,
        alloc: Global,
        touches: &Touches,
        shape: &Shape,
        order: TouchOrder,
        arrays: &[u32],
    ) -> Result<(), PlanFault>
        requires lists { length touches.now ≡ iterations shape.now.loops }
        requires plan { IsPlanOf touches.now shape.now self.old }
        requires order { IsOrderFor shape.now order }
        requires alike { AreAlike shape.now arrays.now }
        ensures packs { TakesPacks arrays.now (IsPackingBy touches.now shape.now (places_of self.old) arrays.now self.old.packs order) self.old result self.new }
        ensures plan { IsPlanOf touches.now shape.now self.new }
    {
        let packs = next_packs(
            alloc,
            touches,
            shape,
            &self.places,
            order,
            arrays,
            self.packs.as_slice(),
        )?;
        self.packs = packs;
        mark(&mut self.moved_arrays, arrays);
        Ok(())
    }

    /// The new position of each source position of a loop.
    fn order(&self, of: u32) -> &Perm
        requires { of < length self.now.orders }
        ensures { result.now ≡ order_of self.now.orders of }
    {
        &self.places.orders.as_slice()[of as usize]
    }

    /// The tile of each unit, and the order of each loop.
    pub fn places(&self) -> &Places
        ensures tiles { result.now.tiles ≡ self.now.tiles }
        ensures orders { result.now.orders ≡ self.now.orders }
    {
        &self.places
    }

    /// The packed place of each place of the array.
    pub fn pack(&self, array: u32) -> &Perm
        requires { array < length self.now.packs }
        ensures { result.now ≡ pack_of self.now array }
    {
        &self.packs.as_slice()[array as usize]
    }

    /// The packings of all arrays, by their numbers.
    pub fn packs(&self) -> &[Perm]
        ensures { result.now ≡ self.now.packs }
    {
        self.packs.as_slice()
    }

    /// How many tiles there are.
    pub fn tiles(&self) -> u32
        ensures { result ≡ self.now.count }
    {
        self.tiles
    }

    /// Of each loop whether it has another order than the source's, or may have.
    pub fn moved_loops(&self) -> &[bool]
        ensures { result.now ≡ self.now.moved_loops }
    {
        self.moved_loops.as_slice()
    }

    /// Of each array whether it has other places than its own, or may have.
    pub fn moved_arrays(&self) -> &[bool]
        ensures { result.now ≡ self.now.moved_arrays }
    {
        self.moved_arrays.as_slice()
    }

    /// Whether the loop has another order than the source's, or may have.
    pub fn moved_loop(&self, n: u32) -> bool
        requires { n < length self.now.moved_loops }
        ensures { slice_get self.now.moved_loops n ≡ Some result }
    {
        self.moved_loops.as_slice()[n as usize]
    }

    /// Whether the array has other places than its own, or may have.
    pub fn moved_array(&self, n: u32) -> bool
        requires { n < length self.now.moved_arrays }
        ensures { slice_get self.now.moved_arrays n ≡ Some result }
    {
        self.moved_arrays.as_slice()[n as usize]
    }
}
