//! Literals as they are read: names are still texts.
//!
//! The rules are tested on these trees, and what a literal means is made of them (`Resolved`).

use spf_base::Name;
use sqlite_items::Items;

/// An index expression: its monomials, of which there is one at least.
#[cycle(raw_ix)]
#[derive(Drop)]
pub struct RawIx {
    pub monos: Items<RawMono>,
}

/// A number times what stands behind it, and whether `-` stands in front. The number is 1 where only an atom stands there.
#[cycle(raw_ix)]
#[derive(Drop)]
pub struct RawMono {
    pub minus: bool,
    pub number: u64,
    pub atom: RawAtom,
}

/// What a number multiplies.
#[cycle(raw_ix)]
#[derive(Drop)]
pub enum RawAtom {
    /// Nothing: the number stands alone.
    Unit,
    Plain(Name),
    /// A name with an index expression in brackets behind it.
    Entry { name: Name, at: RawIx },
}

/// A monomial without its sign.
#[derive(Drop)]
pub struct Product {
    pub number: u64,
    pub atom: RawAtom,
}

/// How a constraint compares its sides.
#[derive(Clone, Copy)]
pub enum Compare {
    Equal,
    AtMost,
    Less,
    AtLeast,
    Greater,
}

#[derive(Drop)]
pub struct RawConstraint {
    pub left: RawIx,
    pub sign: Compare,
    pub right: RawIx,
}

/// A literal of a set, or of a relation where there is a tuple of outputs.
#[derive(Drop)]
pub struct RawLiteral {
    pub ins: Items<Name>,
    pub outs: Option<Items<Name>>,
    /// The names behind `with`.
    pub inner: Items<Name>,
    pub constraints: Items<RawConstraint>,
}
