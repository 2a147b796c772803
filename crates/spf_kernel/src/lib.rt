//! The kernel language: its grammar, its eleven rules, the tree that a kernel means, and printing one.
//!
//! A raw tree, whose names and numbers are still tokens (`raw`), is read (`read`); what it says, note by note (`note`), is
//! held against the rules (`check`); its names are resolved to numbers (`resolve`, `tree`); and a tree is written as words
//! (`printing`). Parsing is linear in the tokens, and its recursion is bounded: brackets nest 5 and parentheses 8 deep.
//!
//! Upward the crate gives one contract: `parse` answers the tree of the kernel that stands at a token and breaks no rule, or
//! the exact fault of syntax, or the least place and the least rule that is broken there (`IsAnswer`); at most one kernel
//! stands there (`one_kernel_stands`). A `Kernel` keeps that some text is parsed to it, so that each number in its tree names
//! something declared or in scope (`IsNamed`); and `print` gives a text that is parsed to the same tree (`IsTextOf`).
#![tactic(auto)]

mod accessors;
mod check;
mod fault;
mod kernel;
mod note;
mod printing;
pub mod raw;
mod read;
mod resolve;
mod signs;
mod sites;
pub mod tree;

pub use fault::{KernelFault, Unkept};
pub use kernel::{Kernel, judge, one_answer, parse, print};
pub use printing::term::pieces_are_fewest;
pub use read::raw_kernel::{names_are_words, one_kernel_stands, one_raw_tree};
