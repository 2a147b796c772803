//! The cells of data arrays.

ghost use Rattle.std.specs.Prelude.{◌≡◌, ◌<◌, ◌^◌, ℕ, List, length, slice_get, Some};
ghost use Rattle.spf_space.specs.declared.shape.ArrayShape.{ArrayShape};
ghost use Rattle.spf_space.specs.Layout.{AreAdjacent, cells_in};
ghost use Rattle.spf_store.specs.Stored.{HasPlace, IsAt, IsStored};

use spf_space::ArrayShape;
use spf_touch::Cells;
use sqlite_items::Items;
use std::marker::Model;

/// The cells of data arrays, which lie one behind the other.
#[derive(Drop)]
pub struct Store {
    pub cells: Vec<i64>,
    pub arrays: Items<ArrayShape>,
}

impl Model for Store {
    ghost use Rattle.spf_store.specs.Stored.{Stored, IsStored};

    ghost Value = { Stored };

    ghost view = { λ store. record { cells = store.cells.items; arrays = store.arrays } };

    ghost invariant = { λ store. IsStored (record { cells = store.cells.items; arrays = store.arrays }) };
}

/// The element of a place of an array.
#[tactic(auto, using(crate::proofs::Adjacent::element_fits))]
fn element_in(arrays: &[ArrayShape], array: u32, place: u32) -> u32
    requires adjacent { AreAdjacent 0 arrays.now }
    requires few { cells_in arrays.now < 2 ^ 32 }
    requires there { HasPlace arrays.now array place }
    ensures { IsAt arrays.now array place result }
{
    arrays[array as usize].start + place
}

/// The array and the place of an element. Linear in the arrays.
#[tactic(auto)]
fn place_in(arrays: &[ArrayShape], element: u32) -> (u32, u32)
    requires adjacent { AreAdjacent 0 arrays.now }
    requires inside { element < cells_in arrays.now }
    requires few { length arrays.now < 2 ^ 32 }
    ensures { IsAt arrays.now result.0 result.1 element }
{
    let mut place = element;
    for (array, shape) in arrays.iter().enumerate() {
        if place < shape.length {
            return (array as u32, place);
        }
        place -= shape.length;
    }
    unreachable!()
}

impl Store {
    /// The number in a cell.
    pub fn cell(&self, element: u32) -> i64
        requires { element < length self.now.cells }
        ensures { slice_get self.now.cells element ≡ Some result }
    {
        self.cells[element as usize]
    }

    /// The element of a place of an array. Constant time.
    pub fn flat(&self, array: u32, place: u32) -> u32
        requires { HasPlace self.now.arrays array place }
        ensures { IsAt self.now.arrays array place result }
    {
        element_in(self.arrays.as_slice(), array, place)
    }

    /// The array of an element, and its place there. Linear in the arrays.
    pub fn unflat(&self, element: u32) -> (u32, u32)
        requires { element < length self.now.cells }
        ensures { IsAt self.now.arrays result.0 result.1 element }
    {
        place_in(self.arrays.as_slice(), element)
    }
}

impl Cells for Store {
    ghost use Rattle.std.specs.Prelude.{pos, nat_lt, length, slice_index_or, refl};
    ghost use Rattle.std.proofs.Common.{◌∙◌};

    ghost own = { λ store element. nat_lt element (length store.cells) };

    ghost value = { λ store element. slice_index_or store.cells element (pos 0) };

    ghost kept = { λ store others. store.arrays ≡ others.arrays };

    fn get(&self, element: u32) -> i64 {
        self.cells[element as usize]
    }

    fn set(&mut self, element: u32, number: i64) {
        self.cells[element as usize] = number;
    }

    ghost kept_at_first = { λ cells. refl };

    ghost kept_on = { λ first second last before after. before ∙ after };
}

/// Law: an element is one place of one array, and a place of an array is one element.
pub fn places_are_elements()
    ensures element { (arrays : List ArrayShape) (array place e f : ℕ) → IsAt arrays array place e → IsAt arrays array place f → e ≡ f }
    ensures place { (arrays : List ArrayShape) (array place other_array other_place e : ℕ) → AreAdjacent 0 arrays →
        IsAt arrays array place e → IsAt arrays other_array other_place e → (array ≡ other_array) × (place ≡ other_place) }
{}
