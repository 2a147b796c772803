//! Sets, relations and their conjunctions.

use spf_term::Term;
use sqlite_items::Items;

/// Constraints that a point meets together. Variables are numbered inputs, outputs, inner; a set has no outputs.
#[derive(Drop)]
pub struct Conj {
    /// How many inner variables there are.
    pub inner: u32,
    /// Terms that are 0.
    pub equal: Items<Term>,
    /// Terms of at least 0.
    pub least: Items<Term>,
}

/// The points of `arity` numbers that meet some conjunction.
#[derive(Drop)]
pub struct Set {
    pub arity: u32,
    pub conjs: Items<Conj>,
}

/// The pairs of `ins` numbers and `outs` numbers that meet some conjunction.
#[derive(Drop)]
pub struct Rel {
    pub ins: u32,
    pub outs: u32,
    pub conjs: Items<Conj>,
}
