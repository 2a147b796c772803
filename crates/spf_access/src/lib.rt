//! What the iterations of one step touch, or the first fault on the way through them.
//!
//! One walk goes through the iterations of a step in textual order (spf_store's `walk_iteration`), counts its visits,
//! compares each value that is evaluated with what is allowed there, and notes each access in the touch list of its
//! iteration. Upward the crate gives one contract: `accesses` answers the touch lists of all iterations where the walk has
//! no fault, and else its first fault (`IsAccessAnswer`).
//!
//! It stands on spf_store for what an iteration does, on spf_term for values, on spf_touch for touch lists, and on spf_space
//! for shapes. The walk takes constant time for each event, and 4 bytes for each cell besides the touches.
#![tactic(auto)]

mod access_fault;
mod compare;
mod enumeration;
mod laws;
mod progress;
mod stop;
mod terms;
mod walks;

pub use access_fault::AccessFault;
pub use enumeration::accesses;
pub use laws::{no_fault_is_in_range, touched_elements_are_cells};
