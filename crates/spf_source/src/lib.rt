//! The plain interpreter: what the source loops do to cells, unit by unit.
//!
//! `run_unit` runs one iteration of one loop, on any cells; what it makes of their values is the effect of that unit
//! (`Effect`). `run_source` runs all of them in textual order, so many steps, and leaves the source result (`Source`).
//! Both carry out each iteration by spf_store's `run_iteration`: that every value on the way is allowed, is what they ask of
//! their caller.
//!
//! `SourceUnits` are the same units, as spf_touch has them: they keep the frame law, so that they may be run in any legal
//! order, and run in ascending order they give the source result (`source_behavior`, `ascending_units_are_the_source`).
//!
//! It stands on spf_store for traces, effects and iterations that are carried out, and on spf_touch for cells.
//! It takes no memory. A unit is linear in its events and in what its assignments are written with.
#![tactic(auto)]

mod given;
mod laws;
mod loops;
mod source;
mod source_units;
mod unit;

pub use laws::ascending_units_are_the_source;
pub use source::run_source;
pub use source_units::SourceUnits;
pub use unit::run_unit;
