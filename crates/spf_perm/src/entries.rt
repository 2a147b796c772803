//! Walks over the entries of a list.

ghost use Rattle.std.specs.Prelude.{◌≡◌, ◌<◌, ◌^◌, ℕ, IfOk, MatchOption, pos, length, map, slice_index_or};
ghost use Rattle.std.specs.List.{range_with_len};
ghost use Rattle.spf_perm.specs.Perm.{at, AreDistinct, AreInside, AreInverse, IsFirstOutside, IsFirstRepeat, IsPerm};

use std::alloc::{AllocError, Global};

/// The first place whose entry isn't below the length.
pub(crate) fn first_outside(list: &[u32]) -> Option<u32>
    requires { length list.now < 2 ^ 32 }
    ensures { MatchOption result (AreInside list.now (length list.now)) (IsFirstOutside list.now) }
{
    for (place, entry) in list.iter().enumerate() {
        if *entry as usize >= list.len() {
            return Some(place as u32);
        }
    }
    None
}

/// The least place whose entry stands earlier, behind that earlier place. A marker for each entry says where it was seen,
/// counted from 1.
pub(crate) fn first_repeat(alloc: Global, list: &[u32]) -> Result<Option<(u32, u32)>, AllocError>
    requires few { length list.now < 2 ^ 32 }
    requires inside { AreInside list.now (length list.now) }
    ensures { IfOk result (λ found. MatchOption found (AreDistinct list.now (length list.now)) (λ pair. IsFirstRepeat list.now pair.0 pair.1)) }
{
    let mut markers = vec![in alloc; 0; list.len()]?;
    for (place, entry) in list.iter().enumerate() {
        let marker: u32 = markers[*entry as usize];
        if marker != 0 {
            return Ok(Some((marker - 1, place as u32)));
        }
        markers[*entry as usize] = place as u32 + 1;
    }
    Ok(None)
}

/// For each entry where it stands.
pub(crate) fn places_of(alloc: Global, list: &[u32]) -> Result<Vec<u32>, AllocError>
    requires { IsPerm list.now }
    ensures { IfOk result (λ places. AreInverse list.now places.items) }
{
    let mut places = vec![in alloc; 0; list.len()]?;
    for (place, entry) in list.iter().enumerate() {
        places[*entry as usize] = place as u32;
    }
    Ok(places)
}

/// The numbers below the length.
pub(crate) fn numbers_below(alloc: Global, len: u32) -> Result<Vec<u32>, AllocError>
    ensures { IfOk result (λ numbers. numbers.items ≡ range_with_len 0 len) }
{
    let mut numbers = Vec::new(alloc);
    for number in 0..len {
        numbers.push(number)?;
    }
    Ok(numbers)
}

/// The entry of the second list at each entry of the first.
pub(crate) fn entries_of(alloc: Global, list: &[u32], after: &[u32]) -> Result<Vec<u32>, AllocError>
    requires inside { AreInside list.now (length list.now) }
    requires equal { length after.now ≡ length list.now }
    ensures { IfOk result (λ entries. entries.items ≡ map (at after.now) list.now) }
{
    let mut entries = Vec::new(alloc);
    for entry in list {
        entries.push(after[*entry as usize])?;
    }
    Ok(entries)
}

/// Moves each cell to the place that the list says.
pub(crate) fn move_cells(list: &[u32], from: &[i64], to: &mut [i64])
    requires perm { IsPerm list.now }
    requires from { length from.now ≡ length list.now }
    requires to { length to.old ≡ length list.now }
    ensures { (e : ℕ) → e < length list.now → slice_index_or to.new (at list.now e) (pos 0) ≡ slice_index_or from.now e (pos 0) }
{
    for (place, entry) in list.iter().enumerate() {
        to[*entry as usize] = from[place];
    }
}
