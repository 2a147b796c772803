//! How large a kernel's loops and arrays are, and its units of work, numbered in textual order.
//!
//! A shape has the number of steps, each loop's first iteration and extent, and where each array lies among the cells. A
//! unit is one iteration of one loop at one step. Upward the crate gives one contract: the ordinal of a unit is its place in
//! the list of all units in textual order (`units_of`), and `split` finds the unit at a place of that list; a unit stands
//! before another in textual order exactly where its ordinal is the lesser (`ordinals_are_textual_order`).
//!
//! Places say in which tile each unit is run, and each loop in which order: a unit is run before another exactly where its
//! place's number is the lesser (`numbers_are_places`). `units_in_order` lists all units in the order of their places, each
//! once (`AreInOrder`).
//!
//! It stands on spf_base for names and on spf_perm for the orders of loops. Its calls are linear in the
//! loops, of which a kernel has at most 32, and take no memory, but for `units_in_order`, which sorts.
#![tactic(auto)]

mod in_order;
mod places;
mod shape;
mod unit;

pub use in_order::units_in_order;
pub use places::{Places, numbers_are_places};
pub use shape::{ArrayShape, LoopShape, Shape};
pub use unit::{Unit, ordinals_are_textual_order};
