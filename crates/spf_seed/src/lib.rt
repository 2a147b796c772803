//! Seeds: the parts of a loop's positions from which the tiles of all units are grown.
//!
//! A view says which elements each position touches. `block` cuts the positions into ranges; `spread` cuts the order in which
//! a breadth-first walk finds them, where two positions are neighbours if they touch a common element. Upward the crate gives
//! two contracts: `block` is a formula, and `spread` gives the parts of the one breadth-first order that there is
//! (`IsSpread`, `one_breadth_first_order`). The code never compares two positions: it sorts the entries of the view by their
//! elements, and goes through each element's positions once. n log n in the entries, with some 16 bytes for each.
#![tactic(auto)]

mod inverted;
mod laws;
mod listing;
mod ranges;
mod view;
mod walk;

pub use laws::one_breadth_first_order;
pub use ranges::block;
pub use view::SeedView;
pub use walk::spread;
