//! Why a text isn't in a grammar.

/// What stands at the place where a text leaves its grammar.
#[derive(Clone, Copy, Debug, PartialEq, Eq)]
pub enum TextKind {
    /// No token stands there.
    Token,
    /// A token that can't stand there.
    Unexpected,
    /// The end of the text.
    End,
}
