//! Tests of orders, packings and seeds, from outside: each test calls what is public, as a user does.
//!
//! There is a module for each crate under test.
#![tactic(auto)]

#[cfg(test)]
mod pack;
#[cfg(test)]
mod perm;
#[cfg(test)]
mod seed;
