//! Which raw tree stands at a token: a reader for each production, and laws on what it reads.

mod declaration;
mod ix;
pub mod raw_kernel;
mod statement;
mod value;
