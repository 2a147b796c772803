//! The words of bundles: what their grammar, which kernels and scripts are parts of, tells apart of a token.

use crate::language::{Quoted, TokenKind, find};

/// What the grammar of bundles tells apart of a token.
#[derive(Clone, Copy, PartialEq, Eq)]
pub enum Kind {
    /// A number of value 1.
    One,
    /// Any other number.
    Number,
    /// A word that the grammar doesn't quote.
    Name,
    Spf,
    Kernel,
    Param,
    Index,
    In,
    Monotone,
    Strict,
    Data,
    Steps,
    Loop,
    For,
    If,
    And,
    Script,
    Cpack,
    By,
    Lexgroup,
    Lexsort,
    Bucket,
    Size,
    Tile,
    At,
    Seed,
    Block,
    Spread,
    Plug,
    Tilepack,
    Input,
    OpenBrace,
    CloseBrace,
    OpenBracket,
    CloseBracket,
    OpenParenthesis,
    CloseParenthesis,
    Comma,
    Semicolon,
    Range,
    Equals,
    PlusEquals,
    Plus,
    Minus,
    Star,
    Equal,
    Unequal,
    Less,
    AtMost,
    Greater,
    AtLeast,
    /// A token that stands nowhere in a bundle.
    Other,
}

/// The texts that the grammar of bundles quotes: the symbols, and then the words.
const QUOTED: [Quoted<'static, Kind>; 48] = [
    Quoted {
        text: b"-",
        kind: Kind::Minus,
    },
    Quoted {
        text: b"=",
        kind: Kind::Equals,
    },
    Quoted {
        text: b";",
        kind: Kind::Semicolon,
    },
    Quoted {
        text: b",",
        kind: Kind::Comma,
    },
    Quoted {
        text: b"[",
        kind: Kind::OpenBracket,
    },
    Quoted {
        text: b"]",
        kind: Kind::CloseBracket,
    },
    Quoted {
        text: b"{",
        kind: Kind::OpenBrace,
    },
    Quoted {
        text: b"}",
        kind: Kind::CloseBrace,
    },
    Quoted {
        text: b"(",
        kind: Kind::OpenParenthesis,
    },
    Quoted {
        text: b")",
        kind: Kind::CloseParenthesis,
    },
    Quoted {
        text: b"..",
        kind: Kind::Range,
    },
    Quoted {
        text: b"+=",
        kind: Kind::PlusEquals,
    },
    Quoted {
        text: b"+",
        kind: Kind::Plus,
    },
    Quoted {
        text: b"*",
        kind: Kind::Star,
    },
    Quoted {
        text: b"==",
        kind: Kind::Equal,
    },
    Quoted {
        text: b"!=",
        kind: Kind::Unequal,
    },
    Quoted {
        text: b"<",
        kind: Kind::Less,
    },
    Quoted {
        text: b"<=",
        kind: Kind::AtMost,
    },
    Quoted {
        text: b">",
        kind: Kind::Greater,
    },
    Quoted {
        text: b">=",
        kind: Kind::AtLeast,
    },
    Quoted {
        text: b"spf",
        kind: Kind::Spf,
    },
    Quoted {
        text: b"kernel",
        kind: Kind::Kernel,
    },
    Quoted {
        text: b"param",
        kind: Kind::Param,
    },
    Quoted {
        text: b"index",
        kind: Kind::Index,
    },
    Quoted {
        text: b"in",
        kind: Kind::In,
    },
    Quoted {
        text: b"monotone",
        kind: Kind::Monotone,
    },
    Quoted {
        text: b"strict",
        kind: Kind::Strict,
    },
    Quoted {
        text: b"data",
        kind: Kind::Data,
    },
    Quoted {
        text: b"steps",
        kind: Kind::Steps,
    },
    Quoted {
        text: b"loop",
        kind: Kind::Loop,
    },
    Quoted {
        text: b"for",
        kind: Kind::For,
    },
    Quoted {
        text: b"if",
        kind: Kind::If,
    },
    Quoted {
        text: b"and",
        kind: Kind::And,
    },
    Quoted {
        text: b"script",
        kind: Kind::Script,
    },
    Quoted {
        text: b"cpack",
        kind: Kind::Cpack,
    },
    Quoted {
        text: b"by",
        kind: Kind::By,
    },
    Quoted {
        text: b"lexgroup",
        kind: Kind::Lexgroup,
    },
    Quoted {
        text: b"lexsort",
        kind: Kind::Lexsort,
    },
    Quoted {
        text: b"bucket",
        kind: Kind::Bucket,
    },
    Quoted {
        text: b"size",
        kind: Kind::Size,
    },
    Quoted {
        text: b"tile",
        kind: Kind::Tile,
    },
    Quoted {
        text: b"at",
        kind: Kind::At,
    },
    Quoted {
        text: b"seed",
        kind: Kind::Seed,
    },
    Quoted {
        text: b"block",
        kind: Kind::Block,
    },
    Quoted {
        text: b"spread",
        kind: Kind::Spread,
    },
    Quoted {
        text: b"plug",
        kind: Kind::Plug,
    },
    Quoted {
        text: b"tilepack",
        kind: Kind::Tilepack,
    },
    Quoted {
        text: b"input",
        kind: Kind::Input,
    },
];

impl TokenKind for Kind {
    ghost use Rattle.std.specs.Prelude.{refl};
    ghost use Rattle.spf_lex.specs.BundleWords.{same_kind, bundle_words};
    ghost use Rattle.spf_lex.specs.contracts.kind.Kind.{the_type};
    ghost use denote.Enum.Bare.{same_true, true_same};

    ghost same = { same_kind };

    ghost language = { bundle_words };

    ghost exact = { λ a b. (same_true the_type tt a b, true_same the_type a b) };

    ghost apart = { refl };

    fn is(self, other: Kind) -> bool {
        self == other
    }

    fn quoted(text: &[u8]) -> Option<Kind> {
        find(&QUOTED, text)
    }

    fn name() -> Kind {
        Kind::Name
    }

    fn one() -> Kind {
        Kind::One
    }

    fn number() -> Kind {
        Kind::Number
    }

    fn other() -> Kind {
        Kind::Other
    }
}
