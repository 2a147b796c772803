//! Where positions, places and elements go.

ghost use Rattle.std.specs.Prelude.{◌≡◌, ◌<◌, ◌^◌, None, slice_index_or};
ghost use Rattle.spf_space.specs.Layout.{cells_in};
ghost use Rattle.spf_pack.specs.Packing.{packed_element};
ghost use Rattle.spf_exec.specs.Executor.{IsOfMoved, moved_to};
ghost use Rattle.spf_exec.specs.Moves.{AreMovesOf, lengths, packings_of};

use spf_perm::Perm;
use spf_space::ArrayShape;

/// Where a position or a place goes by the move of this number. Constant time.
pub(crate) fn moved_to(moves: &[Option<Perm>], number: usize, from: u32) -> u32
    requires { IsOfMoved (slice_index_or moves.now number None) from }
    ensures { result ≡ moved_to (slice_index_or moves.now number None) from }
{
    match moves.get(number) {
        Some(Some(perm)) => perm.at(from),
        _ => from,
    }
}

/// Where an element goes by the packings of the arrays, which lie one behind the other. Linear in the arrays.
pub(crate) fn packed_element(arrays: &[ArrayShape], moves: &[Option<Perm>], element: u32) -> u32
    requires cells { cells_in arrays.now < 2 ^ 32 }
    requires moves { AreMovesOf (lengths arrays.now) moves.now }
    ensures { result ≡ packed_element (packings_of moves.now arrays.now) element }
{
    let mut place = element;
    for (number, array) in arrays.iter().enumerate() {
        if place < array.length {
            return element - place + moved_to(moves, number, place);
        }
        place -= array.length;
    }
    element
}
