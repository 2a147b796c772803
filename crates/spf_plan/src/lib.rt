//! The plan of a transformation: in which order and in which tiles units are run, and where the cells of arrays lie.
//!
//! A plan begins with the source order and is changed by steps (`Takes`). A step that orders a loop is taken where it keeps the
//! order of all conflicting units, and is else refused with the first two units that it reverses. A tiling gives all units the
//! tiles that grow from the parts of a loop's iterations, and is refused with the first two of them along which these fall. A
//! packing gives each listed array the places of first touch, from the packings before the step, and is never refused.
//! Upward the crate gives one contract: each plan is legal for the touches that it was made for (`IsPlanOf`), and `plan`
//! answers what the steps make of the source plan, or the first refusal (`IsPlanAnswer`), which leaves no choice but for out of
//! memory (`one_plan_answer`).
//!
//! It stands on spf_script for steps, on spf_space for units and places, on spf_perm for orders and packings, on spf_touch
//! and spf_layers for touches, layers and legality, on spf_legal for the first reversed pair, on spf_group for orders by key,
//! on spf_pack for packings, on spf_seed for the parts of a tiling, on spf_grow for the tiles, and on spf_base. An order costs its sort and the test of
//! legality, a tiling its seed and two passes over the touches of all units, a packing a pass over the touches for each listed
//! array; no step copies the tiles.
#![tactic(auto)]

mod laws;
mod packing;
mod plan_fault;
mod planning;
mod plans;
mod reorder;
mod source;
mod tiling;
mod view;

pub use laws::one_plan_answer;
pub use plan_fault::PlanFault;
pub use planning::plan;
pub use plans::Plan;
