//! What a kernel says, one note behind another in the order of its text, as far as the rules are about it.

use spf_lex::Token;

/// What a declared name is.
#[derive(Clone, Copy)]
pub enum Sort {
    Param,
    /// An index array.
    Index,
    /// A data array.
    Data,
    Loop,
}

/// Where a name is used.
#[derive(Clone, Copy)]
pub enum Spot {
    /// In the size of an array, the range of an index array, or the number of steps.
    Head,
    /// In a bound of a loop.
    Bound,
    /// In an index expression in the body of a loop.
    Body,
    /// As a factor of a value.
    Factor,
    /// As the target of an assignment.
    Target,
}

/// The variables that are in scope, by the tokens that name them.
#[derive(Clone, Copy)]
pub enum Scope {
    /// No variable is.
    Nothing,
    /// That of the loop is.
    Within(Token),
    /// That of the loop and that of the `for` are.
    Inside(Token, Token),
}

/// What is said of a token.
#[derive(Clone, Copy)]
pub enum Says {
    /// A parameter, an array or a loop gets its name.
    Declared(Sort),
    /// A variable gets its name; that of a `for` stands in a loop with the outer one.
    Variable,
    /// A name is used, with brackets or without.
    Used { brackets: bool, spot: Spot },
    /// A number of an index expression passes its limit.
    Large,
    /// A monomial stands behind as many as its index expression may have.
    Excess,
    /// A factor of a value, other than a value in parentheses.
    Factor,
    /// An `if` begins.
    Guard,
    /// A condition of an `if` begins.
    Condition,
}

/// One thing that is said, the token that it is said of, and the variables that are in scope there.
#[derive(Clone, Copy)]
pub struct Note {
    pub token: Token,
    pub says: Says,
    pub scope: Scope,
}
