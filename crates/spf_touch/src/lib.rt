//! What a unit of work touches, when two units conflict, and what a unit may do to the cells.
//!
//! It stands on the wrapping arithmetic of spf_base. Upward it gives two contracts: `conflict` is true exactly where two
//! touch lists clash at some element (`Conflict`), and whatever implements `Units` keeps the frame law (`FrameLaw`), so
//! that units may be reordered and run on copies. Units of straight-line actions (`Actions`) keep it by one proof. `conflict` costs the product of the two lengths, a run what its unit
//! costs, and the other calls are constant but for `OpUnits::of`.
#![tactic(auto)]

mod blend;
mod cells;
mod class;
mod conflicts;
mod laws;
mod op;
mod op_units;
mod perform;
mod renaming;
mod touch;
mod touch_lists;
mod touches;
mod units;

pub use blend::blend_laws;
pub use cells::Cells;
pub use class::Class;
pub use conflicts::conflict;
pub use laws::{actions_keep_the_frame_law, any_legal_order, work_on_a_copy};
pub use op::Op;
pub use op_units::OpUnits;
pub use renaming::{
    alike_units_do_the_same, renamed_actions_do_the_same, renamed_units_do_the_same,
};
pub use touch::Touch;
pub use touch_lists::TouchLists;
pub use touches::Touches;
pub use units::Units;
