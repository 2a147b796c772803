//! Tests of the loops and the tiles, from outside: each test calls what is public, as a user does.
//!
//! There is a module for each crate under test; that for spf_core is `tiles`, since no module may have the name of a
//! library.
#![tactic(auto)]

#[cfg(test)]
mod space;
#[cfg(test)]
mod store;
#[cfg(test)]
mod term;
#[cfg(test)]
mod tiles;
#[cfg(test)]
mod touch;
#[cfg(test)]
mod turn;
