//! Ranges of integers.

ghost use Rattle.std.specs.Prelude.{◌≡◌, ◌^◌};
ghost use Rattle.std.specs.Int.{int_gap};
ghost use Rattle.spf_term.specs.Bounded.{IsWithin};

use std::ops::Range;

/// How many integers there are from a lower bound up to but not including an upper one.
pub fn extent(range: &Range<i64>) -> u32
    requires low { IsWithin (2 ^ 22) range.now.start }
    requires high { IsWithin (2 ^ 22) range.now.end }
    ensures { result ≡ int_gap range.now.start range.now.end }
{
    if range.start < range.end {
        (range.end - range.start) as u32
    } else {
        0
    }
}
