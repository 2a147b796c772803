//! Parts that are ranges of positions.

ghost use Rattle.std.specs.Prelude.{◌≡◌, ◌<◌, ◌≤◌, ◌*◌, ◌/◌, All, IfOk, map};
ghost use Rattle.std.specs.List.{range_with_len};

use spf_base::NoMemory;
use std::alloc::Global;

/// The part of a position.
fn part_of(position: u32, n: u32, parts: u32) -> u32
    requires { position < n }
    ensures { result ≡ position * parts / n }
{
    (u64::from(position) * u64::from(parts) / u64::from(n)) as u32
}

/// The part of each of n positions, where the parts are ranges, and as equal as can be. Linear in the positions.
pub fn block(alloc: Global, n: u32, parts: u32) -> Result<Vec<u32>, NoMemory>
    requires { 1 ≤ parts }
    ensures parts { IfOk result (λ list. list.items ≡ map (λ position. position * parts / n) (range_with_len 0 n)) }
    ensures below { IfOk result (λ list. All (λ part. part < parts) list.items) }
{
    let mut list = Vec::with_capacity(alloc, n as usize)?;
    for position in 0..n {
        list.push(part_of(position, n, parts))?;
    }
    Ok(list)
}
