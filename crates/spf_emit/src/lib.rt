//! The text of the executor: the source's loops with the terms of a program in place of the source's index expressions.
//!
//! `emit` writes how many tiles and steps there are, and then each loop by its name and its statements, a line each. A
//! statement keeps the shape that it has in the source. Each of its places takes the next term of the program: the subscript
//! of a data array, a bound of a `for`, a side of a condition, and a loop variable or an entry of an index array that is a
//! factor (`emit_text` in specs/Text.antt). So nothing is composed here; and no text is read.
//!
//! `emit` asks that a body has as many terms as its loop has places. The program of a kernel has
//! (`generated_programs_have_all_terms`), and in its text each place has what becomes of the source there: index expressions
//! composed, and subscripts of packed arrays packed (`generated_programs_are_written_composed`, docs/executor.md).
//!
//! It stands on spf_exec for programs, on spf_kernel for trees and the words of their signs, on spf_reltext for the text of a
//! term, and on spf_base for running out of memory. The text takes time linear in it, and memory for it and for the names of
//! the kernel.
#![tactic(auto)]

mod laws;
mod names;
mod parts;
mod statement;
mod text;
mod value;

pub use laws::{generated_programs_are_written_composed, generated_programs_have_all_terms};
pub use text::emit;
