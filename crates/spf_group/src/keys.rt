//! The keys of a loop's positions.

ghost use Rattle.std.specs.Prelude.{◌≡◌, ◌+◌, ◌<◌, ◌≤◌, ◌++◌, ◌/◌, ◌^◌, ℕ, IfOk, OnOk, List, [], length, map, take, slice_index_or, IsPermutation};
ghost use Rattle.std.specs.Cmp.Lexicographic.{slice_cmp};
ghost use Rattle.std.specs.List.{range_with_len};
ghost use Rattle.std.specs.List.Sorted.{IsSortedByKey, IsStableByKey};
ghost use Rattle.std.specs.Option.{option_to_list};
ghost use Rattle.std.specs.Ordering.{nat_cmp};
ghost use Rattle.spf_group.specs.Keys.{IsSized, key_of, place_in, places_of};
ghost use Rattle.spf_group.specs.Parts.{AreStarts, cut};

use crate::key::Key;
use spf_base::NoMemory;
use spf_perm::Perm;
use spf_touch::{Touch, Touches};
use std::alloc::Global;
use std::cmp::Ordering;
use std::marker::Model;

/// What the keys are made of: the packed places of the array that begins at this element.
#[derive(Clone, Copy)]
pub(crate) struct Column<'a> {
    pub(crate) start: u32,
    pub(crate) now: &'a Perm,
    pub(crate) key: Key,
}

/// The keys by position, one behind the other, and where each begins; behind the last start stands the end of the last key.
#[derive(Drop)]
pub(crate) struct Keys {
    parts: Vec<u32>,
    starts: Vec<usize>,
}

impl Model for Keys {
    ghost use Rattle.std.specs.Prelude.{ℕ, List};
    ghost use Rattle.spf_group.specs.Parts.{AreStarts, cut};

    ghost Value = { List (List ℕ) };

    ghost view = { λ keys. cut keys.parts.items keys.starts.items };

    ghost invariant = { λ keys. AreStarts keys.parts.items keys.starts.items };
}

impl Keys {
    /// The keys of the iterations from this one on. Linear in their touches.
    pub(crate) fn of(
        alloc: Global,
        column: Column,
        touches: &Touches,
        first: u32,
        count: u32,
    ) -> Result<Keys, NoMemory>
        requires size { IsSized column.key }
        requires there { first + count ≤ length touches.now }
        requires few { length touches.now < 2 ^ 32 }
        ensures { IfOk result (λ keys. keys ≡ map (λ position. key_of column.entry.key (places_of column.entry.start column.entry.now.now (slice_index_or touches.now (first + position) []))) (range_with_len 0 count)) }
    {
        let mut parts = Vec::new(alloc);
        let mut starts = Vec::new(alloc);
        starts.push(0)?;
        for position in 0..count {
            push_key(&mut parts, column, touches.of(first + position))?;
            starts.push(parts.len())?;
        }
        Ok(Keys { parts, starts })
    }

    /// The key of a position, or the empty list where there is none.
    fn at(&self, position: u32) -> &[u32]
        ensures { result.now ≡ slice_index_or self.now position [] }
    {
        key_at(
            self.parts.as_slice(),
            self.starts.as_slice(),
            position as usize,
        )
    }

    /// Compares the keys of two positions.
    fn compare(&self, a: u32, b: u32) -> Ordering
        ensures { result ≡ slice_cmp nat_cmp (slice_index_or self.now a []) (slice_index_or self.now b []) }
    {
        self.at(a).cmp(self.at(b))
    }

    /// Sorts the positions by their keys; those of equal keys stay in order.
    pub(crate) fn sort(&self, positions: &mut Vec<u32>) -> Result<(), NoMemory>
        ensures permutation { IsPermutation positions.old.items positions.new.items }
        ensures sorted { OnOk result (IsSortedByKey (λ position. slice_index_or self.now position []) (slice_cmp nat_cmp) positions.new.items) }
        ensures stable { IsStableByKey (λ position. slice_index_or self.now position []) (slice_cmp nat_cmp) positions.old.items positions.new.items }
    {
        positions.sort_by(|a, b| self.compare(*a, *b))?;
        Ok(())
    }
}

/// The list at a position, or the empty one where there is none.
fn key_at<'a>(parts: &'a [u32], starts: &[usize], position: usize) -> &'a [u32]
    requires starts { AreStarts parts.now starts.now }
    requires small { position < 2 ^ 32 }
    ensures { result.now ≡ slice_index_or (cut parts.now starts.now) position [] }
{
    if position + 1 < starts.len() {
        &parts[starts[position]..starts[position + 1]]
    } else {
        &[]
    }
}

/// The packed place of an element of the array that begins at `start`.
fn place_in(start: u32, now: &Perm, element: u32) -> Option<u32>
    ensures { result ≡ place_in start now.now element }
{
    if start <= element && element - start < now.len() {
        Some(now.at(element - start))
    } else {
        None
    }
}

/// The packed place of the first touch of the array.
fn first_place(start: u32, now: &Perm, touches: &[Touch]) -> Option<u32>
    ensures { option_to_list result ≡ take 1 (places_of start now.now touches.now) }
{
    for touch in touches {
        if let Some(place) = place_in(start, now, touch.element) {
            return Some(place);
        }
    }
    None
}

/// The bucket of a place.
fn bucket_of(place: u32, size: u64) -> u32
    requires { 1 ≤ size }
    ensures { result ≡ place / size }
{
    (u64::from(place) / size) as u32
}

/// Puts the packed places of all touches of the array at the end.
fn push_places(
    parts: &mut Vec<u32>,
    start: u32,
    now: &Perm,
    touches: &[Touch],
) -> Result<(), NoMemory>
    ensures { OnOk result (parts.new.items ≡ parts.old.items ++ places_of start now.now touches.now) }
{
    for touch in touches {
        if let Some(place) = place_in(start, now, touch.element) {
            parts.push(place)?;
        }
    }
    Ok(())
}

/// Puts the key of an iteration with these touches at the end.
fn push_key(parts: &mut Vec<u32>, column: Column, touches: &[Touch]) -> Result<(), NoMemory>
    requires { IsSized column.key }
    ensures { OnOk result (parts.new.items ≡ parts.old.items ++ key_of column.entry.key (places_of column.entry.start column.entry.now.now touches.now)) }
{
    let first = match column.key {
        Key::All => return push_places(parts, column.start, column.now, touches),
        Key::First => first_place(column.start, column.now, touches),
        Key::Bucket(size) => {
            first_place(column.start, column.now, touches).map(|place| bucket_of(place, size))
        }
    };
    if let Some(number) = first {
        parts.push(number)?;
    }
    Ok(())
}
