//! The turn: a lock that hands out one value with a tale of entries, and whose passes know what they have seen of it.
//!
//! It stands on spf_base for the answer for want of memory, and on the kit's table of atomic words and slots. Upward it gives
//! one contract: there is one tale, which begins with all that any pass has seen, and in which the entries of a pass's number
//! are exactly those that it added (`Turn`, `PassState`). What holds between any two atomic steps is one record (`IsKept`).
//! Making and closing a turn are linear in the passes. All other calls are constant, but for the wait of `Turn::take`, and
//! only `Turn::new` takes memory.
#![tactic(auto)]

mod board;
mod held;
mod making;
mod pass;
mod plays;
mod rule;
mod turn;
mod view;

pub use held::{Busy, Held};
pub use pass::Pass;
pub use rule::TurnRule;
pub use turn::Turn;
