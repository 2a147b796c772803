//! The text of sets and relations: literals such as `{ [i] -> [j] : j = f[i] + 1 } | ..`, read and printed.
//!
//! The words are those of calculator texts (`CalcKind`). Each production is one record (`Productions`): its grammar, with
//! brackets 5 deep, the raw literal that is made of a derivation, and its reader; the grammar is LL(1). Of a raw literal
//! its monomials are listed, one fact each in the order of the text (`Facts`): rules 22 to 24 are tests of the literals and
//! of these facts (`Rules`), and the facts number the names of parameters and functions by their first use (`Names`).
//! What literals mean is made of them as they are written, with no term made normal (`Resolved`).
//!
//! Upward the crate gives two contracts. `parse_rel` and `parse_set` answer the relation or set of the literals that stand
//! at a token, or the exact fault of syntax there, or the least rule that is broken (`IsRelAnswer`, `IsSetAnswer`); what they
//! give is well-formed, names that there were keep their numbers (`names_are_kept`), and literals are read in one way
//! (`one_list_of_literals`). `print_rel` and `print_set` give the
//! text of a relation or set (`Printed`), in which variables are named X, Y and E by what they are, and that text is read
//! with the same meaning (`printed_is_read`). `push_term` prints a
//! term alone, however its caller writes variables, parameters and functions: that is a `TermNames`, whose meaning is a
//! `Naming`. A `Layout` writes those of sets and relations.
//!
//! The crate stands on spf_lex for words, productions and their readers, on spf_rel and spf_term for what is read and
//! printed, and on spf_base for names, places and running out of memory. The names of parameters and functions are found by
//! their hashes (`NameSet`), so that reading is linear in the tokens on average, but each name is looked for among the
//! variables of its literal, one by one. Printing is linear in the text.
#![tactic(auto)]

mod fact;
mod ix;
mod kind;
mod layout;
mod literal;
mod meaning;
mod name_set;
mod names;
mod parse;
mod part;
mod print_parts;
mod print_sides;
mod print_term;
mod printing;
mod raw;
mod round_trip;
mod rules;
mod terms;

pub use kind::CalcKind;
pub use layout::Layout;
pub use literal::{Literals, one_list_of_literals};
pub use name_set::NameSet;
pub use names::{RelNames, names_are_kept};
pub use parse::{RelTextFault, parse_rel, parse_set};
pub use print_term::{TermNames, push_term};
pub use printing::{print_rel, print_set};
pub use round_trip::printed_is_read;
pub use rules::{Shape, same_shape};
