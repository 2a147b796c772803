//! The commands: from the words and the bytes in to the bytes out.
//!
//! `command` reads a bundle or a calculator text from a source, carries out what the words ask for, and writes its text on a
//! sink and a line for any refusal on another; `status` gives the exit status. `run` runs the bundle's loops in the order of
//! its plan and writes its arrays; `plan` writes the plan: the order of each loop, the packing of each array, the tile of each
//! unit, and which tiles come before which; `emit` writes its executor; and `calc` writes the results of a calculator text.
//! What is answered for a bundle is a chain of stages, one behind the other: few enough bytes, a bundle whose kernel and input
//! keep their rules, few enough units, a walk on which nothing is refused, a script that keeps its rules, steps each of which
//! is legal, and then what the command does with the plan. The first that refuses is the outcome, so that the commands refuse
//! the same bundles in the same words.
//!
//! The crate stands on spf_calc for calculator texts, on spf_input for whole bundles, on spf_store and spf_access for shapes
//! and the walk, on spf_script, spf_layers and spf_plan for plans, on spf_job, spf_exec and spf_emit for running a plan and
//! for the text of its executor, on spf_tiles and spf_core for the order of tiles, on spf_io for whole input and output, and
//! on spf_base for names and places. Upward it gives one contract, that of `command`: what is written for which words and
//! input, or why it is refused (`answers`, `AnswersInput`), with which words (`AnswersWords`), and when each outcome comes. A
//! call is linear in the bytes, in the visits and in what it writes, beside what the steps of the script and the order of the
//! tiles cost. `kept` and `arrays_text` are for the program of the plain interpreter, which reads and writes in the same way.
#![tactic(auto)]

mod commands;
mod outcome;
mod plan_text;
mod report;
mod stages;
mod text;
mod words;

pub use commands::command;
pub use outcome::{Outcome, What, status};
pub use stages::kept;
pub use text::arrays_text;
