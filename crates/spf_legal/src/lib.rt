//! Whether units are run in a legal order, and running them so.
//!
//! It stands on spf_layers for groups that fit what the units touch, and on spf_space for the places at which units are
//! run. Upward it gives two contracts: `first_reversed` finds the first of all conflicting pairs of which the later unit
//! isn't run behind the earlier one, though it looks at neighbouring groups alone; and `run_placed` runs the units in the
//! order of legal places, which does what running them in textual order does.
#![tactic(auto)]

mod falls;
mod first;
mod laws;
mod placed;

pub use first::first_reversed;
pub use laws::legal_where_none_is_reversed;
pub use placed::run_placed;
