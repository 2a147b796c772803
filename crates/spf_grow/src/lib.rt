//! Numbers of units that grow from a seed: how the tiles of a loop at a step become the tiles of all units.
//!
//! It stands on spf_touch for what units touch and when two conflict, on spf_space for the units of a shape, on spf_layers for
//! what the first pair of a relation is, and on spf_base. Upward it gives one contract: `grow` answers the one growth of the
//! seed (`IsGrowth`, `one_growth`), the least numbers behind the seed units and the greatest before them that fall along no
//! conflicting pair of units, or the first pair along which the seed itself falls.
//!
//! The definition is over all pairs and all functions. The code goes over the units once forward and once backward, with one
//! greatest number for each element and class: linear in the touches of all steps and the cells.
#![tactic(auto)]

mod extremes;
mod grow_fault;
mod growing;
mod laws;
mod passes;
mod seeds;
mod units;

pub use grow_fault::GrowFault;
pub use growing::grow;
pub use laws::{no_growth_where_the_seed_falls, one_growth};
