//! Tests of the languages and of what they stand on, from outside: each test calls what is public, as a user does.
//!
//! There is a module for each crate under test: `spf_base`, `spf_io`, `spf_lex`, `spf_kernel`, `spf_script`, `spf_rel`,
//! `spf_reltext` and `spf_calc`.
#![tactic(auto)]

#[cfg(test)]
mod base;
#[cfg(test)]
mod calc;
#[cfg(test)]
mod io;
#[cfg(test)]
mod kernel;
#[cfg(test)]
mod lex;
#[cfg(test)]
mod look_ahead;
#[cfg(test)]
mod rel;
#[cfg(test)]
mod reltext;
#[cfg(test)]
mod script;
