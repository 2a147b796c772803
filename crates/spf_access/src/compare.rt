//! Values compared with what is allowed at their sites.

ghost use Rattle.std.specs.Prelude.{◌≡◌, ◌+◌, ◌<◌, ◌^◌, IfOk, length, map, neg_ℤ, pos, slice_index_or};
ghost use Rattle.spf_term.specs.Bounded.{IsWithin};
ghost use Rattle.spf_space.specs.Layout.{AreAdjacent, cells_in};
ghost use Rattle.spf_store.specs.Effect.{element_at};
ghost use Rattle.spf_store.specs.FirstFault.{bound_limit, unless_between};
ghost use Rattle.spf_access.specs.Progress.{IsCompared, starts_in};

use crate::stop::Stop;
use spf_space::ArrayShape;

/// The greatest bound of a `for`; the least is as far below 0.
const BOUND_LIMIT: i64 = 4194304;

/// A place of a table or an array of this length.
pub(crate) fn place_in(site: u32, place: i64, length: usize) -> Result<(), Stop>
    ensures { IsCompared (unless_between (pos 0) (pos length) site place) result }
{
    match usize::try_from(place) {
        Ok(inside) if inside < length => Ok(()),
        _ => Err(Stop::Range { site, value: place }),
    }
}

/// A bound of a `for`.
pub(crate) fn bound(site: u32, value: i64) -> Result<(), Stop>
    ensures compared { IsCompared (unless_between (neg_ℤ (pos bound_limit)) (pos (bound_limit + 1)) site value) result }
    ensures within { IfOk result (λ _. IsWithin (2 ^ 22) value) }
{
    if -BOUND_LIMIT <= value && value <= BOUND_LIMIT {
        Ok(())
    } else {
        Err(Stop::Range { site, value })
    }
}

/// The element at a subscript of a data array.
pub(crate) fn element(arrays: &[ArrayShape], site: u32, array: u32, place: i64) -> Result<u32, Stop>
    requires adjacent { AreAdjacent 0 arrays.now }
    requires few { cells_in arrays.now < 2 ^ 32 }
    ensures compared { IsCompared (unless_between (pos 0) (pos (slice_index_or (map (λ array. array.length) arrays.now) array 0)) site place) result }
    ensures is { IfOk result (λ element. element ≡ element_at (slice_index_or (starts_in arrays.now) array 0) place) }
    ensures inside { IfOk result (λ element. element < cells_in arrays.now) }
{
    match arrays.get(array as usize) {
        Some(shape) => match u32::try_from(place) {
            Ok(inside) if inside < shape.length => Ok(shape.start + inside),
            _ => Err(Stop::Range { site, value: place }),
        },
        None => Err(Stop::Range { site, value: place }),
    }
}
