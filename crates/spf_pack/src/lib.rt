//! Packings of data arrays in the order in which their places are first touched.
//!
//! `cpack` goes through the iterations of one loop in their current order, `tilepack` through all units in the order of their
//! places. Each takes the touches of the listed arrays, and gives the touched places in the order of their first touch, and
//! then the other places by the present packing (`IsFirstTouchPacking`). Upward the crate gives this contract, and the law that
//! neither leaves a choice (`one_packing`).
//!
//! `pack_cells` moves the cells of all arrays to where the packings take them, and `unpack` fetches them back. Where an
//! element goes is `packed_element`, which is a renaming in the sense of spf_touch (`packing_is_renaming`).
//!
//! It stands on spf_touch for touch lists, on spf_space for shapes and places, and on spf_perm for orders and packings. A
//! call looks at each touch once, at a cost that is linear in the listed arrays, and takes some 9 bytes for each place.
#![tactic(auto)]

mod laws;
mod listing;
mod members;
mod packing;
mod packs;

pub use laws::one_packing;
pub use packing::{pack_cells, packing_is_renaming, unpack};
pub use packs::{cpack, tilepack};
