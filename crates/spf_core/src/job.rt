//! A job: units in tiles.

ghost use Rattle.std.specs.Prelude.{◌≡◌, ◌<◌, ◌≤◌, ℕ, IfOk, None, is_some, length, map, true, vec_items};
ghost use Rattle.spf_touch.specs.Frame.{after_units};
ghost use Rattle.spf_core.specs.Copies.{HasRoom, value_in};
ghost use Rattle.spf_core.specs.Replay.{claimed, merged, values_of, worked};
ghost use Rattle.spf_core.specs.SoundJob.{IsFoot, IsSound};
ghost use Rattle.spf_core.specs.Stand.{widest_of};
ghost use Rattle.spf_core.specs.Tiling.{foot_of, list_of, tile_class};

use crate::copied::Copied;
use crate::foot::{copy_foot, merge_foot, widest_foot};
use crate::order::Order;
use crate::work::run_list;
use spf_base::NoMemory;
use spf_touch::{Cells, Touch, Units};
use std::alloc::Global;
use std::marker::Model;

/// Units in tiles whose every history gives the same result.
#[derive(Drop)]
pub struct Job<U: Units> {
    units: U,
    lists: Vec<Vec<u32>>,
    order: Order,
    feet: Vec<Vec<Touch>>,
    cells: Vec<i64>,
}

impl<U: Units> Model for Job<U> {
    ghost use Rattle.std.specs.Prelude.{map, vec_items};
    ghost use Rattle.spf_core.specs.Parts.{Parts};
    ghost use Rattle.spf_core.specs.SoundJob.{IsSound};

    ghost Value = { Parts U };

    ghost view = { λ job. record {
      units = job.units;
      tiling = record {
        lists = map vec_items job.lists.items;
        order = job.order;
        feet = map vec_items job.feet.items;
        cells = job.cells.items;
      };
    } };

    ghost invariant = { λ job. IsSound (U.behavior job.units) (record {
      lists = map vec_items job.lists.items;
      order = job.order;
      feet = map vec_items job.feet.items;
      cells = job.cells.items;
    }) };
}

impl<U: Units> Job<U> {
    /// The job with these parts. It takes no memory.
    pub fn make(
        units: U,
        lists: Vec<Vec<u32>>,
        order: Order,
        feet: Vec<Vec<Touch>>,
        cells: Vec<i64>,
    ) -> Job<U>
        requires { IsSound (U.behavior units) (record {
          lists = map vec_items lists.items;
          order = order;
          feet = map vec_items feet.items;
          cells = cells.items;
        }) }
        ensures units { result.units ≡ units }
        ensures lists { result.tiling.lists ≡ map vec_items lists.items }
        ensures order { result.tiling.order ≡ order }
        ensures feet { result.tiling.feet ≡ map vec_items feet.items }
        ensures cells { result.tiling.cells ≡ cells.items }
    {
        Job {
            units,
            lists,
            order,
            feet,
            cells,
        }
    }

    /// The number of tiles.
    pub fn tiles(&self) -> u32
        ensures tiles { result ≡ length self.now.tiling.lists }
        ensures some { 1 ≤ result }
        ensures few { result ≤ 1024 }
    {
        self.lists.len() as u32
    }

    /// A law: the parts are sound. It does nothing.
    pub fn sound(&self)
        ensures { IsSound (U.behavior self.now.units) self.now.tiling }
    {
        let _ = &self.units;
    }

    /// Each tile's units in turn.
    pub fn lists(&self) -> &[Vec<u32>]
        ensures { map vec_items result.now ≡ self.now.tiling.lists }
    {
        self.lists.as_slice()
    }

    /// The cells that the job begins with.
    pub fn cells(&self) -> &[i64]
        ensures { result.now ≡ self.now.tiling.cells }
    {
        self.cells.as_slice()
    }

    pub fn order(&self) -> &Order
        ensures { result.now ≡ self.now.tiling.order }
    {
        &self.order
    }

    /// What the tile touches, in ascending order of elements.
    pub fn foot(&self, tile: u32) -> &[Touch]
        requires { tile < length self.now.tiling.lists }
        ensures foot { result.now ≡ foot_of self.now.tiling tile }
        ensures sound { IsFoot (U.behavior self.now.units) self.now.tiling tile }
    {
        self.feet[tile as usize].as_slice()
    }

    /// The number of elements of the greatest foot. Linear in the tiles.
    pub(crate) fn widest(&self) -> usize
        ensures { result ≡ widest_of self.now.tiling.feet }
    {
        widest_foot(self.feet.as_slice())
    }

    fn list(&self, tile: u32) -> &[u32]
        requires { tile < length self.now.tiling.lists }
        ensures list { result.now ≡ list_of self.now.tiling tile }
        ensures sound { IsSound (U.behavior self.now.units) self.now.tiling }
    {
        self.lists[tile as usize].as_slice()
    }

    /// An empty copy that fits each tile of the job.
    pub fn room(&self, alloc: Global) -> Result<Copied, NoMemory>
        ensures room { IfOk result (λ copied. HasRoom self.now.tiling copied) }
        ensures empty { IfOk result (λ copied. (e : ℕ) → value_in copied e ≡ None) }
    {
        Copied::empty(alloc, self.cells.len())
    }

    /// Makes the copy that a claim of the tile gives. Linear in the room.
    pub fn copy(&self, tile: u32, cells: &[i64], copied: &mut Copied)
        requires tile { tile < length self.now.tiling.lists }
        requires cells { length cells.now ≡ length self.now.tiling.cells }
        requires room { HasRoom self.now.tiling copied.old }
        ensures room { HasRoom self.now.tiling copied.new }
        ensures values { (e : ℕ) → value_in copied.new e ≡ claimed (U.behavior self.now.units) self.now.tiling tile (values_of cells.now) e }
    {
        copy_foot(self.foot(tile), cells, copied);
    }

    /// Runs the tile's units on any cells that have their elements.
    pub(crate) fn run_tile<C: Cells>(&self, tile: u32, cells: &mut C)
        requires tile { tile < length self.now.tiling.lists }
        requires own { (e : ℕ) → e < length self.now.tiling.cells → C.own cells.old e ≡ true }
        ensures own { (e : ℕ) → C.own cells.new e ≡ C.own cells.old e }
        ensures kept { C.kept cells.old cells.new }
        ensures value { (e : ℕ) → C.value cells.new e ≡ after_units (U.behavior self.now.units) (list_of self.now.tiling tile) (C.value cells.old) e }
    {
        run_list(&self.units, self.list(tile), cells);
    }

    /// Runs the tile's units on its copy. It costs what they cost.
    pub fn work(&self, tile: u32, copied: &mut Copied)
        requires tile { tile < length self.now.tiling.lists }
        requires room { HasRoom self.now.tiling copied.old }
        requires keys { (e : ℕ) → is_some (value_in copied.old e) ≡ is_some (tile_class (U.behavior self.now.units) self.now.tiling tile e) }
        ensures room { HasRoom self.now.tiling copied.new }
        ensures values { (e : ℕ) → value_in copied.new e ≡ worked (U.behavior self.now.units) self.now.tiling tile (value_in copied.old) e }
    {
        run_list(&self.units, self.list(tile), copied);
    }

    /// Blends the tile's worked copy into the cells. Linear in the foot.
    pub fn merge(&self, tile: u32, copied: &Copied, cells: &mut [i64])
        requires tile { tile < length self.now.tiling.lists }
        requires cells { length cells.old ≡ length self.now.tiling.cells }
        requires room { HasRoom self.now.tiling copied.now }
        requires keys { (e : ℕ) → is_some (value_in copied.now e) ≡ is_some (tile_class (U.behavior self.now.units) self.now.tiling tile e) }
        ensures { (e : ℕ) → values_of cells.new e ≡ merged (U.behavior self.now.units) self.now.tiling tile (value_in copied.now) (values_of cells.old) e }
    {
        merge_foot(self.foot(tile), copied, cells);
    }
}
