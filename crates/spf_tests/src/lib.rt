//! Tests of bundles and of the command, from outside: each test calls what is public, as a user does.
//!
//! Tests of what isn't public stand in their crate. A crate with tests is proved a second time whole, so the others stand in
//! four crates where there is little else to prove: here what reads whole bundles, in `spf_language_tests` the languages and
//! what they stand on, in `spf_loop_tests` the loops and the tiles, and in `spf_order_tests` permutations, packings and
//! seeds. So a change proves again only the tests of what stands on it, and the four are proved side by side.
#![tactic(auto)]

#[cfg(test)]
mod input;
#[cfg(test)]
mod plans;
#[cfg(test)]
mod top;
