//! What every crate of the compiler speaks of: want of memory, places in a text, names, and arithmetic that wraps.
//!
//! It stands on nothing. Upward it gives one contract: `wadd`, `wsub` and `wmul` are the sum, the difference and the
//! product of the integers, wrapped to 64 bits (`IsWrap`), and a `Name` is always a word of at most 32 bytes (`IsName`).
//! All its calls are constant, but for the copy of a name.
#![tactic(auto)]

mod arithmetic;
mod name;
mod no_memory;
mod place;

pub use arithmetic::{one_wrap, wadd, wmul, wsub};
pub use name::Name;
pub use no_memory::NoMemory;
pub use place::Place;
