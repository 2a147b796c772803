//! The executor: a kernel's loops in the order of its new positions, on packed cells.
//!
//! Each subscript, bound, side of a condition, loop variable and index array entry of a loop's body becomes a term in the
//! position P, which is variable 0, and the inner variable J, which is variable 1 (`program_of` in specs/Generated.antt). A
//! moved loop has a function from positions to iterations, and a moved array one from places to packed places; they stand
//! as tables behind the index arrays (`AreTablesOf` in specs/Executor.antt). A law says that a composed term has at a position
//! the value that the source's term has at the iteration there, and that a packed term has the packed place of its value.
//!
//! A body of a program has its items with these terms too. At the new position of a unit they make of packed cells what the unit
//! makes of the source's, so that the executor runs the units of the source, renamed by the packings
//! (`executor_runs_renamed_units`). Upward the crate gives `generate`, which answers the program and makes a composition for each
//! place of a body (docs/executor.md), and `bind`: a `Runner` is these units on any cells (`executor_behavior`
//! in specs/Running.antt), and keeps the frame law with the source's; it takes memory once, for its tables, and none in a unit.
//!
//! It stands on spf_kernel for trees, on spf_term for terms and values, on spf_rel for compositions, on spf_store for
//! iterations that are carried out, on spf_space for shapes, on spf_touch for units and renamings, on spf_perm for orders and packings, and on spf_pack for
//! where packings take elements.
#![tactic(auto)]

mod composition;
mod environment;
mod generation;
mod laws;
mod moves;
mod program;
mod renamed;
mod rewriting;
mod runner;
mod sites;
mod tables;
mod terms;
mod units;
mod values;

pub use generation::generate;
pub use laws::composed_terms_keep_the_value;
pub use program::{Body, Moved, Program};
pub use renamed::{executor_items_are_small, executor_units_are_renamed};
pub use runner::{Runner, bind};
pub use units::executor_runs_renamed_units;
