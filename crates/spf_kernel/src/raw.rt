//! The tree of a kernel as it is read: names and numbers are still the tokens that they stand at.
//!
//! The rules are about the places of names and numbers, so that they are told of this tree, and resolving its names
//! gives the public one.

use crate::tree::{Becomes, Compare, Trend};
use spf_lex::Token;
use sqlite_items::{Boxed, Items};

/// An index expression: its monomials with their signs, of which there is one at least.
#[cycle(raw_ix)]
#[derive(Drop)]
pub struct RawIx {
    pub steps: Items<RawStep>,
}

/// A monomial, and the `-` in front of it, where one stands there.
#[cycle(raw_ix)]
#[derive(Drop)]
pub struct RawStep {
    pub minus: Option<Token>,
    pub mono: RawMono,
}

/// A monomial of an index expression.
#[cycle(raw_ix)]
#[derive(Drop)]
pub enum RawMono {
    /// A number, or a number times an atom.
    Number(Token, Option<RawAtom>),
    Atom(RawAtom),
}

/// A name, with an index expression in brackets or without.
#[cycle(raw_ix)]
#[derive(Drop)]
pub struct RawAtom {
    pub name: Token,
    pub at: Option<Boxed<RawIx>>,
}

/// A value: its products with their signs, of which there is one at least.
#[cycle(raw_value)]
#[derive(Drop)]
pub struct RawValue {
    pub summands: Items<RawSummand>,
}

/// A product, and whether `-` stands in front of it. It has one factor at least.
#[cycle(raw_value)]
#[derive(Drop)]
pub struct RawSummand {
    pub minus: bool,
    pub facts: Items<RawFactor>,
}

#[cycle(raw_value)]
#[derive(Drop)]
pub enum RawFactor {
    Number(Token),
    /// A value in parentheses.
    Paren(Boxed<RawValue>),
    Name(RawAtom),
}

/// An assignment to the array of this name.
#[derive(Drop)]
pub struct RawAssign {
    pub array: Token,
    pub at: RawIx,
    pub sign: Becomes,
    pub value: RawValue,
}

#[derive(Drop)]
pub struct RawCond {
    pub left: RawIx,
    pub sign: Compare,
    pub right: RawIx,
}

/// An `if`: its conditions, of which there is one at least, and the assignments.
#[derive(Drop)]
pub struct RawGuard {
    pub conds: Items<RawCond>,
    pub body: Items<RawAssign>,
}

/// A variable and its bounds.
#[derive(Drop)]
pub struct RawRange {
    pub var: Token,
    pub low: RawIx,
    pub high: RawIx,
}

#[derive(Drop)]
pub enum RawPart {
    Assign(RawAssign),
    Guard(RawGuard),
}

#[derive(Drop)]
pub enum RawItem {
    Part(RawPart),
    /// A `for`.
    Inner(RawRange, Items<RawPart>),
}

#[derive(Drop)]
pub struct RawLoop {
    pub name: Token,
    pub range: RawRange,
    pub items: Items<RawItem>,
}

/// The name of an array and its size.
#[derive(Drop)]
pub struct RawSized {
    pub name: Token,
    pub size: RawIx,
}

/// A declaration. Each list has one entry at least.
#[derive(Drop)]
pub enum RawDecl {
    Params(Items<Token>),
    Index {
        array: RawSized,
        low: RawIx,
        high: RawIx,
        trend: Trend,
    },
    Values(Items<RawSized>),
}

#[derive(Drop)]
pub struct RawKernel {
    pub decls: Items<RawDecl>,
    pub steps: RawIx,
    pub loops: Items<RawLoop>,
}
