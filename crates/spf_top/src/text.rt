//! The text of arrays.

ghost use Rattle.std.specs.Prelude.{◌≡◌, ◌++◌, ◌∷◌, ◌+◌, ◌≤◌, All, IfOk, OnOk, flat_map, length, slice_range};
ghost use Rattle.std.specs.Fmt.{signed_decimal};
ghost use Rattle.spf_top.specs.Texts.{array_line, arrays_text};

use itoa::Buffer;
use spf_base::NoMemory;
use spf_space::ArrayShape;
use spf_store::Store;
use std::alloc::Global;

/// Appends the cells, each behind a space. Linear in what it appends.
fn push_cells(text: &mut Vec<u8>, cells: &[i64]) -> Result<(), NoMemory>
    ensures { OnOk result (text.new.items ≡ text.old.items ++ flat_map (λ cell. 32 ∷ signed_decimal cell) cells.now) }
{
    let mut buffer = Buffer::new();
    for cell in cells {
        text.push(b' ')?;
        text.extend_from_slice(buffer.format(*cell).as_bytes())?;
    }
    Ok(())
}

/// Appends the line of an array with this name and these cells. Linear in what it appends.
fn push_line(text: &mut Vec<u8>, name: &[u8], cells: &[i64]) -> Result<(), NoMemory>
    ensures { OnOk result (text.new.items ≡ text.old.items ++ array_line name.now cells.now) }
{
    text.extend_from_slice(name)?;
    push_cells(text, cells)?;
    text.push(b'\n')?;
    Ok(())
}

/// The lines of arrays whose cells lie among these. Linear in what it gives.
fn lines(alloc: Global, cells: &[i64], arrays: &[ArrayShape]) -> Result<Vec<u8>, NoMemory>
    requires { All (λ array. array.start + array.length ≤ length cells.now) arrays.now }
    ensures { IfOk result (λ text. text.items ≡ arrays_text cells.now arrays.now) }
{
    let mut text = Vec::new(alloc);
    for array in arrays {
        let end = array.start as usize + array.length as usize;
        push_line(
            &mut text,
            array.name.bytes(),
            &cells[array.start as usize..end],
        )?;
    }
    Ok(text)
}

/// A line for each array of a store: its name and its cells. Linear in what it gives.
pub fn arrays_text(alloc: Global, store: &Store) -> Result<Vec<u8>, NoMemory>
    ensures { IfOk result (λ text. text.items ≡ arrays_text store.now.cells store.now.arrays) }
{
    lines(alloc, store.cells.as_slice(), store.arrays.as_slice())
}
