//! Terms and what they are made of.

use sqlite_items::Items;

/// What a monomial multiplies.
#[cycle(term)]
#[derive(Debug, Drop)]
pub enum Atom {
    /// A variable, by its number.
    Var(u32),
    /// A parameter, by its number.
    Param(u32),
    /// A table, by its number, read at the argument.
    App { fun: u32, arg: Term },
}

/// A coefficient times an atom.
#[cycle(term)]
#[derive(Debug, Drop)]
pub struct Mono {
    pub coef: i64,
    pub atom: Atom,
}

/// The sum of the monomials and the constant.
#[cycle(term)]
#[derive(Debug, Drop)]
pub struct Term {
    pub monos: Items<Mono>,
    pub constant: i64,
}
