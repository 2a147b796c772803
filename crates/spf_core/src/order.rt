//! Which tiles come before which.

ghost use Rattle.std.specs.Prelude.{◌≡◌, ◌≤◌, ◌<◌, ◌↔◌, ℕ, [], All, AllPairs, IfOk, IsTrue, false, length, map, slice_index_or, true, vec_items, vec_len};
ghost use Rattle.spf_touch.specs.Ordered.{is_in};
ghost use Rattle.spf_core.specs.History.{is_before};

use spf_base::NoMemory;
use std::alloc::Global;
use std::marker::Model;

/// For each tile the tiles before it, seen as the list of these lists.
#[derive(Drop)]
pub struct Order {
    before: Vec<Vec<u32>>,
}

impl Model for Order {
    ghost use Rattle.std.specs.Prelude.{◌≤◌, ◌<◌, ℕ, All, AllPairs, List, length, map, vec_items};

    ghost Value = { List (List ℕ) };

    ghost view = { λ order. map vec_items order.before.items };

    ghost invariant = { λ order. (length order.before.items ≤ 1024) × All (All (λ a. a < length order.before.items)) (map vec_items order.before.items)
        × All (AllPairs (λ (a b : ℕ). a < b)) (map vec_items order.before.items) };
}

impl Order {
    /// The order in which a is before b where a stands in the list of b. It takes no memory.
    pub fn of_lists(before: Vec<Vec<u32>>) -> Order
        requires few { vec_len before ≤ 1024 }
        requires rising { All (AllPairs (λ a b. a < b)) (map vec_items before.items) }
        requires below { All (All (λ a. a < length before.items)) (map vec_items before.items) }
        ensures { result ≡ map vec_items before.items }
    {
        Order { before }
    }

    /// The number of tiles.
    pub fn count(&self) -> u32
        ensures { result ≡ length self.now }
    {
        self.before.len() as u32
    }

    /// The tiles before this one.
    pub fn tiles_before(&self, tile: u32) -> &[u32]
        requires { tile < length self.now }
        ensures tiles { result.now ≡ slice_index_or self.now tile [] }
        ensures ascending { AllPairs (λ (a b : ℕ). a < b) result.now }
    {
        self.before[tile as usize].as_slice()
    }

    /// Whether tile a is before tile b. Linear in the tiles before b.
    pub fn before(&self, a: u32, b: u32) -> bool
        requires first { a < length self.now }
        requires second { b < length self.now }
        ensures { result ≡ is_before self.now a b }
    {
        stands_in(self.before[b as usize].as_slice(), a)
    }

    /// Whether every tile before this one is published. Linear in the tiles before it.
    pub(crate) fn ready(&self, published: &[bool], tile: u32) -> bool
        requires tile { tile < length self.now }
        requires marks { length published.now ≡ length self.now }
        ensures { IsTrue result ↔ ((s : ℕ) → is_before self.now s tile ≡ true → slice_index_or published.now s false ≡ true) }
    {
        all_marked(self.before[tile as usize].as_slice(), published)
    }

    /// The same order once more.
    pub(crate) fn copy(&self, alloc: Global) -> Result<Order, NoMemory>
        ensures { IfOk result (λ order. order ≡ self.now) }
    {
        let mut before = Vec::with_capacity(alloc, self.before.len())?;
        for list in &self.before {
            before.push_reserved(Vec::from_slice(alloc, list.as_slice())?);
        }
        Ok(Order { before })
    }
}

fn stands_in(list: &[u32], number: u32) -> bool
    ensures { result ≡ is_in list.now number }
{
    for entry in list {
        if *entry == number {
            return true;
        }
    }
    false
}

fn all_marked(tiles: &[u32], marks: &[bool]) -> bool
    requires { All (λ t. t < length marks.now) tiles.now }
    ensures { IsTrue result ↔ ((t : ℕ) → is_in tiles.now t ≡ true → slice_index_or marks.now t false ≡ true) }
{
    for tile in tiles {
        if !marks[*tile as usize] {
            return false;
        }
    }
    true
}
