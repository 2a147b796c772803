//! The dependence graph of the inspector: for each element of the cells its touching units in textual order, cut into
//! groups. A group is of consecutive units that all read the element or all add to it, or it is one unit alone.
//!
//! It stands on spf_touch for touches and conflicts, and on spf_space for the number of units and cells. Upward it gives
//! one contract: layers that were built fit the touches (`Fits`), so that two units conflict exactly where they stand in
//! different groups of some element whose classes aren't shared. Building is linear in the touches of all steps and the
//! cells; each other call takes constant time and no memory.
#![tactic(auto)]

mod chains;
mod laws;
mod layers;
mod rows;

pub use laws::exact_groups_fit;
pub use layers::Layers;
