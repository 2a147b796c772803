//! Cells, and what the iterations of a kernel do.
//!
//! An iteration's trace is the list of its events in the order of evaluation (`Trace`): turns of inner loops, bounds, entries
//! of index arrays, accesses of data arrays, and assignments carried out. Index arrays, parameters and loop variables
//! determine it, and no data does. What a unit does to the cells (`Effect`), what the source loops make of them (`Source`),
//! what a unit touches (`Accesses`), and the first fault on the way through a step (`FirstFault`) are all said of this list.
//!
//! Upward the crate gives four contracts: `shape` answers how many steps a kernel has, and how large its loops and arrays
//! are, or how many units there are, where those are too many (`IsShapeAnswer`); a `Store` is cells, and `flat` and `unflat`
//! turn a place of an array into an element and back (`IsAt`, `places_are_elements`); `walk_iteration` takes a `Visitor`
//! through the trace of an iteration, event by event, up to the first that it refuses (`Walks`); and `run_iteration` carries
//! an iteration out on any cells, with the visitor that refuses nothing: that each event on the way is allowed (`Allows`) is
//! what it asks. A walk asks of terms that their values are small wherever they are evaluated (`IsSmallItem`), and so serves
//! items other than a kernel's too; those of a kernel are small (`bounded_items_are_small`). What an iteration accesses and
//! makes of the cells is what its actions name and perform (`iterations_are_actions`).
//!
//! It stands on spf_kernel for trees, on spf_term for values, on spf_space for shapes and units, and on spf_touch for cells
//! and actions. `shape` alone takes memory. A walk is linear in its events, and in the parts that are gone past.
#![tactic(auto)]

mod assigns;
mod body_sites;
mod effects;
mod laws;
mod numbers;
mod piece;
mod ranges;
mod shapes;
mod store;
mod terms;
mod values;
mod visitor;
mod walk;

pub use assigns::target_class;
pub use body_sites::assign_sites;
pub use effects::run_iteration;
pub use laws::iterations_are_actions;
pub use numbers::{accepted_numbers_are_small, bounded_items_are_small};
pub use ranges::extent;
pub use shapes::{ShapeFault, array_shapes, outer_value, shape};
pub use store::{Store, places_are_elements};
pub use terms::evaluate;
pub use visitor::Visitor;
pub use walk::walk_iteration;
