//! The tiles of a plan as a job takes them: which tiles come before which, the units of each tile in turn, and what each
//! tile touches.
//!
//! It stands on spf_layers for groups that fit what the units touch, on spf_space for the places at which units are run, on
//! spf_touch for what they touch, and on spf_core for orders of tiles and what a job asks. Upward it gives these contracts:
//! `tile_order` has tile a before tile b exactly where a chain of links leads from a to b (`Before`), though it looks at
//! neighbouring groups alone; such an order is the one that a job asks for (`tile_order_is_for_the_places`); and with it
//! `lists` and `footprints` give the parts of a sound job (`plan_parts_are_sound`).
#![tactic(auto)]

mod closure;
mod feet;
mod joining;
mod laws;
mod links;
mod order;
mod tile_lists;
mod tile_sets;

pub use feet::footprints;
pub use laws::{before_rises, plan_parts_are_sound, tile_order_is_for_the_places};
pub use order::tile_order;
pub use tile_lists::lists;
