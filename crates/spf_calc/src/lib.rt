//! The calculator: a text of statements on sets and relations, and the text of its results.
//!
//! A statement gives a name to a set or relation, shows one, or shows a relation as terms. The text is read whole by its
//! productions (`Productions`), of which lists of literals are those of spf_reltext. Of a raw statement the least of rules 21
//! to 24 is a test (`Rules`); where it breaks none, its expression is worked from the inside out, each result simplified
//! (`Evaluated`), and its value is kept under a name or shown (`Statements`).
//!
//! Upward the crate gives one contract: `calculate` answers the text of the results, or the first fault (`IsResultOf`,
//! `IsFault`).
//!
//! It stands on spf_reltext for literals, names and printed text, on spf_rel and spf_term for what operations make, on spf_lex
//! for tokens and readers, and on spf_base for names, places and running out of memory. Reading is linear in the tokens. A
//! statement costs what its operations and simplifications do; operands have at most 256 conjunctions, and a result with more
//! isn't made. Readers, rules and evaluation recurse as deep as operations nest, at most eight, and as brackets do, at most
//! five. Operations, simplification and printing recurse as deep as terms nest: 16,384 deep at most, and 32,768 while one
//! stands in another. A test composes, simplifies and writes terms that nest 8,192 deep; a process whose stack doesn't hold
//! what it is asked for is ended.
#![tactic(auto)]

mod calculation;
mod evaluation;
mod exp;
mod fault;
mod laws;
mod operating;
mod printing;
mod raw;
mod rules;
mod state;
mod statement;
mod steps;
mod value;

pub use calculation::calculate;
pub use fault::CalcFault;
pub use laws::one_calculation;
