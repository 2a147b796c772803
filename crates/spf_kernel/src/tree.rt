//! The syntax tree of a kernel, with its names resolved to numbers.
//!
//! Parameters, index arrays, data arrays and loops are each numbered from 0 in the order of the text; variable 0 is that
//! of the loop, variable 1 that of the `for`. An index expression is a term whose monomials with an atom stand in the
//! order of the text, and whose other numbers are added up in the constant; an application names an index array.

use spf_base::Name;
use spf_term::Term;
use sqlite_items::Items;

#[derive(Drop)]
pub struct Tree {
    pub decls: Items<Decl>,
    pub steps: Term,
    pub loops: Items<Loop>,
}

/// A declaration. All declarations stand in one list in the order of the text.
#[derive(Drop)]
pub enum Decl {
    Params {
        names: Items<Name>,
    },
    Index {
        name: Name,
        size: Term,
        low: Term,
        high: Term,
        trend: Trend,
    },
    Values {
        arrays: Items<DataDecl>,
    },
}

/// How the values of an index array go on.
#[derive(Clone, Copy)]
pub enum Trend {
    Free,
    Monotone,
    Strict,
}

#[derive(Drop)]
pub struct DataDecl {
    pub name: Name,
    pub size: Term,
}

#[derive(Drop)]
pub struct Loop {
    pub name: Name,
    pub var: Name,
    pub low: Term,
    pub high: Term,
    pub items: Items<Item>,
}

#[derive(Drop)]
pub enum Item {
    Assign(Assign),
    Branch(Guard),
    /// A `for`.
    Inner {
        var: Name,
        low: Term,
        high: Term,
        parts: Items<Part>,
    },
}

#[derive(Drop)]
pub enum Part {
    Assign(Assign),
    Branch(Guard),
}

/// An `if`: where all conditions hold, the assignments are made.
#[derive(Drop)]
pub struct Guard {
    pub conds: Items<Cond>,
    pub body: Items<Assign>,
}

#[derive(Drop)]
pub struct Cond {
    pub left: Term,
    pub sign: Compare,
    pub right: Term,
}

/// How a condition compares its sides.
#[derive(Clone, Copy)]
pub enum Compare {
    Equal,
    Unequal,
    Less,
    AtMost,
    Greater,
    AtLeast,
}

/// An assignment to the data array of this number.
#[derive(Drop)]
pub struct Assign {
    pub array: u32,
    pub sub: Term,
    pub sign: Becomes,
    pub value: Value,
}

/// What an assignment does: `=` puts the value there, `+=` adds it.
#[derive(Clone, Copy)]
pub enum Becomes {
    Put,
    Add,
}

/// The sum of the products.
#[cycle(value)]
#[derive(Drop)]
pub struct Value {
    pub prods: Items<Prod>,
}

/// A product, and whether `-` stands in front of it.
#[cycle(value)]
#[derive(Drop)]
pub struct Prod {
    pub minus: bool,
    pub facts: Items<Factor>,
}

#[cycle(value)]
#[derive(Drop)]
pub enum Factor {
    Number(u64),
    /// A value in parentheses.
    Paren(Value),
    Param(u32),
    Var(u32),
    /// An entry of an index array.
    Index { array: u32, sub: Term },
    /// An element of a data array.
    Cell { array: u32, sub: Term },
}
