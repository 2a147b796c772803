//! What the raw tree says, and the first rule that it breaks; or the names that it declares.

mod before;
mod counts;
mod limits;
mod name_rules;
pub mod names;
pub mod notes;
pub mod rules;
pub(crate) mod state;
