//! The words of a tree, with a function for each production.

mod list;
mod statement;
pub mod term;
pub mod tree;
mod tree_names;
mod value;
