//! The script language: the steps of a transformation, read from the tokens of a bundle, printed, and resolved for a kernel.
//!
//! A script is a list of steps, each a word and the names and numbers behind it (`Productions`). Its names are texts, until
//! `resolve` tests the nine rules of scripts (`Rules`) and turns them into the numbers of loops and arrays of a shape.
//!
//! Upward the crate gives three contracts: `parse` answers the steps of the script that stands at a token, or the exact
//! fault of syntax there (`IsAnswer`); `print` gives a text that is read as the same script (`IsTextOf`); and `resolve`
//! answers the steps with their names as numbers, or the first step that breaks a rule with the least rule that it breaks,
//! or the number of parts where there are too many (`IsResolveAnswer`). A `Script` keeps that some text is parsed to it.
//!
//! The crate stands on spf_lex for the words of bundles, productions and printed words, on spf_space for the loops and
//! arrays of a kernel, and on spf_base for names, places and running out of memory. Reading and printing are linear in the
//! tokens, resolving in the names times the loops and arrays.
#![tactic(auto)]

mod printing;
mod resolved;
mod resolving;
mod rules;
mod script;
mod step;
mod steps;

pub use printing::print;
pub use resolved::{Seed, Step};
pub use resolving::{ScriptFault, one_resolve_answer, resolve};
pub use script::{Script, ScriptTextFault, one_script_stands, parse, script_of};
pub use step::{TextSeed, TextStep};
pub use steps::Steps;
