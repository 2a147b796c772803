//! The cells of all arrays, packed and unpacked.

ghost use Rattle.std.specs.Prelude.{◌≡◌, ◌+◌, ◌<◌, ◌≤◌, ℕ, List, All, IfOk, Some, length, pos, slice_get, slice_index_or};
ghost use Rattle.spf_perm.specs.Perm.{IsPerm, at};
ghost use Rattle.spf_space.specs.Layout.{AreAdjacent, cells_in};
ghost use Rattle.spf_space.specs.declared.shape.ArrayShape.{ArrayShape};
ghost use Rattle.spf_pack.specs.Packing.{HavePackings, cells_of, packed_element, renaming_of, source_element};

use spf_base::NoMemory;
use spf_perm::Perm;
use std::alloc::Global;

/// The cells, each where the packing of its array takes it. The packings are those of the arrays, by their numbers; the
/// arrays lie one behind the other. Linear in the cells, with 8 bytes for each.
pub fn pack_cells(alloc: Global, packings: &[Perm], cells: &[i64]) -> Result<Vec<i64>, NoMemory>
    requires perms { All IsPerm packings.now }
    requires cells { length cells.now ≡ cells_of packings.now }
    ensures length { IfOk result (λ moved. length moved.items ≡ length cells.now) }
    ensures cells { IfOk result (λ moved. (e : ℕ) →
        slice_index_or moved.items (packed_element packings.now e) (pos 0) ≡ slice_index_or cells.now e (pos 0)) }
{
    let mut moved = vec![in alloc; 0; cells.len()]?;
    pack_arrays(packings, cells, moved.as_mut_slice());
    Ok(moved)
}

/// Fetches each cell from where the packing of its array took it. Linear in the cells; it takes no memory.
pub fn unpack(packings: &[Perm], cells: &[i64], out: &mut [i64])
    requires cells { length cells.now ≡ cells_of packings.now }
    requires out { length out.old ≡ cells_of packings.now }
    ensures length { length out.new ≡ length out.old }
    ensures cells { (e : ℕ) → slice_index_or out.new e (pos 0) ≡ slice_index_or cells.now (packed_element packings.now e) (pos 0) }
{
    let mut start = 0;
    for packing in packings {
        unpack_array(packing, start, cells, out);
        start += packing.len() as usize;
    }
}

fn pack_arrays(packings: &[Perm], cells: &[i64], moved: &mut [i64])
    requires perms { All IsPerm packings.now }
    requires cells { length cells.now ≡ cells_of packings.now }
    requires moved { length moved.old ≡ cells_of packings.now }
    ensures length { length moved.new ≡ length moved.old }
    ensures cells { (e : ℕ) → slice_index_or moved.new (packed_element packings.now e) (pos 0) ≡ slice_index_or cells.now e (pos 0) }
{
    let mut start = 0;
    for packing in packings {
        pack_array(packing, start, cells, moved);
        start += packing.len() as usize;
    }
}

/// Packs the cells of the array that begins at `start`.
fn pack_array(packing: &Perm, start: usize, cells: &[i64], moved: &mut [i64])
    requires perm { IsPerm packing.now }
    requires inside { start + length packing.now ≤ length cells.now }
    requires long { length moved.old ≡ length cells.now }
    ensures long { length moved.new ≡ length moved.old }
    ensures cells { (e : ℕ) → e < length packing.now →
        slice_index_or moved.new (start + at packing.now e) (pos 0) ≡ slice_index_or cells.now (start + e) (pos 0) }
    ensures before { (e : ℕ) → e < start → slice_index_or moved.new e (pos 0) ≡ slice_index_or moved.old e (pos 0) }
{
    let end = start + packing.len() as usize;
    packing.apply_to(&cells[start..end], &mut moved[start..end]);
}

/// Unpacks the cells of the array that begins at `start`.
fn unpack_array(packing: &Perm, start: usize, cells: &[i64], out: &mut [i64])
    requires inside { start + length packing.now ≤ length cells.now }
    requires long { length out.old ≡ length cells.now }
    ensures long { length out.new ≡ length out.old }
    ensures cells { (e : ℕ) → e < length packing.now →
        slice_index_or out.new (start + e) (pos 0) ≡ slice_index_or cells.now (start + at packing.now e) (pos 0) }
    ensures before { (e : ℕ) → e < start → slice_index_or out.new e (pos 0) ≡ slice_index_or out.old e (pos 0) }
{
    for place in 0..packing.len() {
        out[start + place as usize] = cells[start + packing.at(place) as usize];
    }
}

/// Law: packing all arrays is a renaming (`renaming_of`): an element goes to where the packing of its array takes it, one behind
/// the arrays stays, all cells stay cells, and `source_element` leads back.
pub fn packing_is_renaming()
    ensures places { (arrays : List ArrayShape) (packings : List (List ℕ)) (number place : ℕ) (array : ArrayShape) (packing : List ℕ) →
        AreAdjacent 0 arrays → HavePackings arrays packings → slice_get arrays number ≡ Some array → slice_get packings number ≡ Some packing →
        place < array.length → packed_element packings (array.start + place) ≡ array.start + at packing place }
    ensures behind { (packings : List (List ℕ)) (e : ℕ) → cells_of packings ≤ e → packed_element packings e ≡ e }
    ensures cells { (arrays : List ArrayShape) (packings : List (List ℕ)) → HavePackings arrays packings → cells_of packings ≡ cells_in arrays }
    ensures below { (packings : List (List ℕ)) (e : ℕ) → All IsPerm packings → e < cells_of packings → packed_element packings e < cells_of packings }
    ensures renaming { (packings : List (List ℕ)) (perms : All IsPerm packings) (e : ℕ) → source_element packings ((renaming_of packings perms).to e) ≡ e }
{}
