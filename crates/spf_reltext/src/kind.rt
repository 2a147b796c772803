//! The words of calculator texts: what their grammar, which literals are parts of, tells apart of a token.

use spf_lex::{Quoted, TokenKind, find};

/// What the grammar of calculator texts tells apart of a token.
#[derive(Clone, Copy, PartialEq, Eq)]
pub enum CalcKind {
    /// A number of value 1.
    One,
    /// Any other number.
    Number,
    /// A word that the grammar doesn't quote.
    Name,
    Calc,
    Let,
    Show,
    Function,
    Compose,
    Apply,
    Union,
    Intersect,
    Restrict,
    Inverse,
    Nothing,
    With,
    And,
    OpenBrace,
    CloseBrace,
    OpenBracket,
    CloseBracket,
    OpenParenthesis,
    CloseParenthesis,
    Comma,
    Semicolon,
    Colon,
    Bar,
    Arrow,
    Equals,
    AtMost,
    Less,
    AtLeast,
    Greater,
    Plus,
    Minus,
    Star,
    /// A token that stands nowhere in a calculator text.
    Other,
}

/// The texts that the grammar of calculator texts quotes: the symbols, and then the words.
const QUOTED: [Quoted<'static, CalcKind>; 32] = [
    Quoted {
        text: b"{",
        kind: CalcKind::OpenBrace,
    },
    Quoted {
        text: b"}",
        kind: CalcKind::CloseBrace,
    },
    Quoted {
        text: b"[",
        kind: CalcKind::OpenBracket,
    },
    Quoted {
        text: b"]",
        kind: CalcKind::CloseBracket,
    },
    Quoted {
        text: b"(",
        kind: CalcKind::OpenParenthesis,
    },
    Quoted {
        text: b")",
        kind: CalcKind::CloseParenthesis,
    },
    Quoted {
        text: b",",
        kind: CalcKind::Comma,
    },
    Quoted {
        text: b";",
        kind: CalcKind::Semicolon,
    },
    Quoted {
        text: b":",
        kind: CalcKind::Colon,
    },
    Quoted {
        text: b"|",
        kind: CalcKind::Bar,
    },
    Quoted {
        text: b"->",
        kind: CalcKind::Arrow,
    },
    Quoted {
        text: b"=",
        kind: CalcKind::Equals,
    },
    Quoted {
        text: b"<=",
        kind: CalcKind::AtMost,
    },
    Quoted {
        text: b"<",
        kind: CalcKind::Less,
    },
    Quoted {
        text: b">=",
        kind: CalcKind::AtLeast,
    },
    Quoted {
        text: b">",
        kind: CalcKind::Greater,
    },
    Quoted {
        text: b"+",
        kind: CalcKind::Plus,
    },
    Quoted {
        text: b"-",
        kind: CalcKind::Minus,
    },
    Quoted {
        text: b"*",
        kind: CalcKind::Star,
    },
    Quoted {
        text: b"calc",
        kind: CalcKind::Calc,
    },
    Quoted {
        text: b"let",
        kind: CalcKind::Let,
    },
    Quoted {
        text: b"show",
        kind: CalcKind::Show,
    },
    Quoted {
        text: b"function",
        kind: CalcKind::Function,
    },
    Quoted {
        text: b"compose",
        kind: CalcKind::Compose,
    },
    Quoted {
        text: b"apply",
        kind: CalcKind::Apply,
    },
    Quoted {
        text: b"union",
        kind: CalcKind::Union,
    },
    Quoted {
        text: b"intersect",
        kind: CalcKind::Intersect,
    },
    Quoted {
        text: b"restrict",
        kind: CalcKind::Restrict,
    },
    Quoted {
        text: b"inverse",
        kind: CalcKind::Inverse,
    },
    Quoted {
        text: b"none",
        kind: CalcKind::Nothing,
    },
    Quoted {
        text: b"with",
        kind: CalcKind::With,
    },
    Quoted {
        text: b"and",
        kind: CalcKind::And,
    },
];

impl TokenKind for CalcKind {
    ghost use Rattle.std.specs.Prelude.{refl};
    ghost use Rattle.spf_reltext.specs.CalcWords.{same_kind, calc_words};
    ghost use Rattle.spf_reltext.specs.contracts.kind.CalcKind.{the_type};
    ghost use denote.Enum.Bare.{same_true, true_same};

    ghost same = { same_kind };

    ghost language = { calc_words };

    ghost exact = { λ a b. (same_true the_type tt a b, true_same the_type a b) };

    ghost apart = { refl };

    fn is(self, other: CalcKind) -> bool {
        self == other
    }

    fn quoted(text: &[u8]) -> Option<CalcKind> {
        find(&QUOTED, text)
    }

    fn name() -> CalcKind {
        CalcKind::Name
    }

    fn one() -> CalcKind {
        CalcKind::One
    }

    fn number() -> CalcKind {
        CalcKind::Number
    }

    fn other() -> CalcKind {
        CalcKind::Other
    }
}
