//! Permutations, as lists of where each element goes.
//!
//! A permutation is read from a list, whose first fault is named exactly, or made: the identity, an inverse, or one behind
//! another. Upward the crate gives one contract: whoever holds a `Perm` of n elements holds a bijection of 0 to n - 1
//! (`IsPerm`), and its calls are the inverse, the composition and the move of cells by it.
//!
//! It stands on no other crate of the repository. Every call that isn't constant is linear in the elements.
#![tactic(auto)]

mod entries;
mod perm;
mod perm_fault;

pub use perm::{Perm, made};
pub use perm_fault::PermFault;
