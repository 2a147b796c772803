//! Calculator texts as they are read: names are still texts.

use spf_base::Name;
use spf_reltext::Literals;
use sqlite_items::{Boxed, Items};

/// An operation on two operands.
#[derive(Clone, Copy)]
pub enum Operation {
    Compose,
    Apply,
    Union,
    Intersect,
    Restrict,
}

/// What stands for a set or a relation. Operations nest at most eight deep in what is read, so dropping one recurses no deeper.
#[cycle(raw_exp)]
#[derive(Drop)]
pub enum RawExp {
    /// The name of an earlier result.
    Named(Name),
    Literals(Literals),
    /// `none`, with the arity of a set or both of a relation.
    Nothing {
        ins: u64,
        outs: Option<u64>,
    },
    Inverse(Boxed<RawExp>),
    Two {
        operation: Operation,
        first: Boxed<RawExp>,
        second: Boxed<RawExp>,
    },
}

#[derive(Drop)]
pub enum RawStatement {
    Let { name: Name, exp: RawExp },
    Show(RawExp),
    Function(RawExp),
}

/// A calculator text.
#[derive(Drop)]
pub struct RawCalc {
    pub statements: Items<RawStatement>,
}
