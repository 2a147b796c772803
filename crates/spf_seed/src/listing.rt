//! The positions that a breadth-first walk has listed.

ghost use Rattle.std.specs.Prelude.{◌≡◌, ◌≢◌, ◌<◌, ◌≤◌, ◌+◌, ℕ, [], All, IfOk, List, OnOk, drop, flat_map, length, take};
ghost use Rattle.std.specs.List.Sorted.{IsNonDecreasingBy, IsPermutation, IsSorted};
ghost use Rattle.std.specs.Ordering.{nat_cmp};
ghost use Rattle.spf_seed.specs.Entries.{AreInverted, positions_in, row_of};
ghost use Rattle.spf_touch.specs.Listed.{all_listed, with_listed};
ghost use Rattle.spf_touch.specs.Ordered.{is_in};
ghost use Rattle.spf_seed.specs.Listings.{AreFlags, IsListing, IsLonger, IsUnderway};
ghost use Rattle.spf_seed.specs.View.{AreNeighbours, IsView, positions, touched};

use crate::inverted::{Entry, find_row};
use crate::view::SeedView;
use spf_base::NoMemory;
use std::alloc::Global;

/// The listed positions in order, for each position whether it is listed, and for the first entry of each element whether
/// the element's positions were gone through.
#[derive(Drop)]
pub(crate) struct Listing {
    pub(crate) order: Vec<u32>,
    pub(crate) flags: Vec<bool>,
    pub(crate) done: Vec<bool>,
}

/// Sorts the numbers from a place on.
fn sort_from(order: &mut Vec<u32>, from: usize)
    requires { from ≤ length order.old.items }
    ensures front { take from order.new.items ≡ take from order.old.items }
    ensures moved { IsPermutation (drop from order.old.items) (drop from order.new.items) }
    ensures sorted { IsSorted nat_cmp (drop from order.new.items) }
{
    order[from..].sort_unstable();
}

impl Listing {
    /// Nothing is listed.
    pub(crate) fn new(alloc: Global, count: u32, entries: &[Entry]) -> Result<Listing, NoMemory>
        ensures kept { IfOk result (λ listing. IsListing count entries.now listing) }
        ensures none { IfOk result (λ listing. listing.order.items ≡ []) }
    {
        Ok(Listing {
            order: Vec::with_capacity(alloc, count as usize)?,
            flags: vec![in alloc; false; count as usize]?,
            done: vec![in alloc; false; entries.len()]?,
        })
    }

    /// Lists a position, unless it is listed.
    pub(crate) fn put(&mut self, position: u32) -> Result<(), NoMemory>
        requires there { position < length self.old.flags.items }
        requires flags { AreFlags self.old }
        ensures flags { OnOk result (AreFlags self.new) }
        ensures still { OnOk result (length self.new.flags.items ≡ length self.old.flags.items) }
        ensures done { OnOk result (self.new.done.items ≡ self.old.done.items) }
        ensures order { OnOk result (self.new.order.items ≡ with_listed self.old.order.items position) }
    {
        if !self.flags[position as usize] {
            self.flags[position as usize] = true;
            self.order.push(position)?;
        }
        Ok(())
    }

    /// Lists the positions of these entries.
    fn put_row(&mut self, row: &[Entry]) -> Result<(), NoMemory>
        requires there { All (λ (entry : Entry). entry.position < length self.old.flags.items) row.now }
        requires flags { AreFlags self.old }
        ensures flags { OnOk result (AreFlags self.new) }
        ensures still { OnOk result (length self.new.flags.items ≡ length self.old.flags.items) }
        ensures done { OnOk result (self.new.done.items ≡ self.old.done.items) }
        ensures order { OnOk result (self.new.order.items ≡ all_listed self.old.order.items (positions_in row.now)) }
    {
        for entry in row {
            self.put(entry.position)?;
        }
        Ok(())
    }

    /// Lists the positions at which the element is touched, unless they were gone through already.
    fn put_element(&mut self, entries: &[Entry], element: u32) -> Result<(), NoMemory>
        requires sorted { IsNonDecreasingBy (λ (entry : Entry). entry.element) entries.now }
        requires there { row_of entries.now element ≢ [] }
        requires below { All (λ (entry : Entry). entry.position < length self.old.flags.items) entries.now }
        requires kept { IsListing (length self.old.flags.items) entries.now self.old }
        ensures kept { OnOk result (IsListing (length self.old.flags.items) entries.now self.new) }
        ensures order { OnOk result (self.new.order.items ≡ all_listed self.old.order.items (positions_in (row_of entries.now element))) }
    {
        let row = find_row(entries, element);
        if !self.done[row.start] {
            self.put_row(&entries[row.start..row.end])?;
            self.done[row.start] = true;
        }
        Ok(())
    }

    /// Lists the positions at which one of these elements is touched.
    fn put_elements(&mut self, entries: &[Entry], elements: &[u32]) -> Result<(), NoMemory>
        requires sorted { IsNonDecreasingBy (λ (entry : Entry). entry.element) entries.now }
        requires there { All (λ element. row_of entries.now element ≢ []) elements.now }
        requires below { All (λ (entry : Entry). entry.position < length self.old.flags.items) entries.now }
        requires kept { IsListing (length self.old.flags.items) entries.now self.old }
        ensures kept { OnOk result (IsListing (length self.old.flags.items) entries.now self.new) }
        ensures order { OnOk result (self.new.order.items ≡ all_listed self.old.order.items (flat_map (λ e. positions_in (row_of entries.now e)) elements.now)) }
    {
        for element in elements {
            self.put_element(entries, *element)?;
        }
        Ok(())
    }

    /// Lists the neighbours of the position at this place of the order, in ascending order.
    fn put_neighbours(
        &mut self,
        entries: &[Entry],
        view: &SeedView,
        place: usize,
    ) -> Result<(), NoMemory>
        requires view { IsView view.now }
        requires entries { AreInverted (touched view.now) (positions view.now) entries.now }
        requires place { place < length self.old.order.items }
        requires kept { IsListing (positions view.now) entries.now self.old }
        requires underway { IsUnderway (AreNeighbours view.now) (positions view.now) self.old.order.items place }
        ensures kept { OnOk result (IsListing (positions view.now) entries.now self.new) }
        ensures underway { OnOk result (IsUnderway (AreNeighbours view.now) (positions view.now) self.new.order.items (place + 1)) }
        ensures still { OnOk result (IsLonger self.old.order.items self.new.order.items) }
    {
        let from = self.order.len();
        let elements = view.touched(self.order[place]);
        self.put_elements(entries, elements)?;
        sort_from(&mut self.order, from);
        Ok(())
    }

    /// Goes on with the walk until all neighbours of listed positions are listed.
    pub(crate) fn exhaust(
        &mut self,
        entries: &[Entry],
        view: &SeedView,
        from: usize,
    ) -> Result<(), NoMemory>
        requires view { IsView view.now }
        requires entries { AreInverted (touched view.now) (positions view.now) entries.now }
        requires place { from ≤ length self.old.order.items }
        requires kept { IsListing (positions view.now) entries.now self.old }
        requires underway { IsUnderway (AreNeighbours view.now) (positions view.now) self.old.order.items from }
        ensures kept { OnOk result (IsListing (positions view.now) entries.now self.new) }
        ensures underway { OnOk result (IsUnderway (AreNeighbours view.now) (positions view.now) self.new.order.items (length self.new.order.items)) }
        ensures still { OnOk result (IsLonger self.old.order.items self.new.order.items) }
    {
        let mut place = from;
        while place < self.order.len() {
            self.put_neighbours(entries, view, place)?;
            place += 1;
        }
        Ok(())
    }
}
