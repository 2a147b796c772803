//! Operations on cells.

/// `Put` writes the sum of `from` and `plus` into `to`, and `Gain` adds `from` to `to`. Sums wrap.
#[derive(Clone, Copy)]
pub enum Op {
    Put { to: u32, from: u32, plus: i64 },
    Gain { to: u32, from: u32 },
}
