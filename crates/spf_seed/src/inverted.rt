//! For each element the positions at which it is touched.

ghost use Rattle.std.specs.Prelude.{◌≡◌, ◌++◌, ◌<◌, ◌≤◌, IfOk, OnOk, length, map};
ghost use Rattle.std.specs.List.{slice_range};
ghost use Rattle.std.specs.List.Sorted.{IsNonDecreasingBy, IsPermutation};
ghost use Rattle.spf_seed.specs.Entries.{AreEntriesTo, AreInverted, entry_at, has_entry, row_of};
ghost use Rattle.spf_seed.specs.View.{IsView, positions, touched};

use crate::view::SeedView;
use spf_base::NoMemory;
use std::alloc::Global;

/// An element, and a position at which it is touched.
#[derive(Clone, Copy)]
pub(crate) struct Entry {
    pub(crate) element: u32,
    pub(crate) position: u32,
}

/// From where up to where the entries of one element stand.
#[derive(Clone, Copy)]
pub(crate) struct Row {
    pub(crate) start: usize,
    pub(crate) end: usize,
}

fn push_entries(entries: &mut Vec<Entry>, elements: &[u32], position: u32) -> Result<(), NoMemory>
    ensures { OnOk result (entries.new.items ≡ entries.old.items ++ map (entry_at position) elements.now) }
{
    for element in elements {
        entries.push(Entry {
            element: *element,
            position,
        })?;
    }
    Ok(())
}

/// The entries of all positions, in their order.
fn entries_of(alloc: Global, view: &SeedView) -> Result<Vec<Entry>, NoMemory>
    requires { IsView view.now }
    ensures { IfOk result (λ entries. AreEntriesTo (touched view.now) (positions view.now) entries.items) }
{
    let mut entries = Vec::with_capacity(alloc, view.elements.len())?;
    for position in 0..view.positions() {
        push_entries(&mut entries, view.touched(position), position)?;
    }
    Ok(entries)
}

/// Sorts the entries by their elements.
fn sort(entries: &mut Vec<Entry>) -> Result<(), NoMemory>
    ensures sorted { OnOk result (IsNonDecreasingBy (λ (entry : Entry). entry.element) entries.new.items) }
    ensures moved { OnOk result (IsPermutation entries.old.items entries.new.items) }
{
    entries.sort_by_key(|entry| entry.element)?;
    Ok(())
}

/// The entries by their elements.
pub(crate) fn inverted(alloc: Global, view: &SeedView) -> Result<Vec<Entry>, NoMemory>
    requires { IsView view.now }
    ensures { IfOk result (λ entries. AreInverted (touched view.now) (positions view.now) entries.items) }
{
    let mut entries = entries_of(alloc, view)?;
    sort(&mut entries)?;
    Ok(entries)
}

/// Where the entries of an element stand.
pub(crate) fn find_row(entries: &[Entry], element: u32) -> Row
    requires { IsNonDecreasingBy (λ (entry : Entry). entry.element) entries.now }
    ensures order { result.start ≤ result.end }
    ensures there { result.end ≤ length entries.now }
    ensures row { slice_range entries.now result.start result.end ≡ row_of entries.now element }
{
    Row {
        start: entries.partition_point(|entry| entry.element < element),
        end: entries.partition_point(|entry| entry.element <= element),
    }
}
