//! The job of a plan: its tiles of units with the packed cells that they run on, and the plan run on one thread.
//!
//! `moved` says what a plan has moved, as the executor takes it (`moved_of`). `job` puts together what the layers below give:
//! the executor's units, which are the source's on packed cells; the units of each tile, the order of the tiles and what each
//! touches; and the cells, packed. That these are a job is no new fact: the plan's places are legal, and units on packed cells
//! conflict where the source's do. Upward the crate gives these contracts: whose units, lists, order and cells a job has, and
//! that `run_tiles`, which runs the job's tiles one after another and unpacks the cells, leaves those of the source result.
//!
//! It stands on spf_plan for plans, on spf_exec for the executor's units, on spf_source for what the source's units do in
//! ascending order, on spf_pack for packed cells, on spf_tiles and spf_core for the parts of jobs and for running them, on
//! spf_touch for renamed units, and on spf_kernel, spf_term, spf_store, spf_space, spf_layers, spf_perm and spf_base for what
//! these are given. A job costs the sort of the units, the sort of the touches of each tile, and the order of the tiles, and is
//! else linear in the touches, the cells, and what `generate` and `bind` cost.
#![tactic(auto)]

mod jobs;
mod moves;
mod running;

pub use jobs::job;
pub use moves::moved;
pub use running::run_tiles;
