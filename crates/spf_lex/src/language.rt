//! What a language tells apart of a token: a table of the texts that it quotes, and kinds for all other tokens.

ghost use Rattle.std.specs.Prelude.{◌≡◌, Bool, true, map};
ghost use Rattle.spf_lex.specs.Grammar.{IsExact};
ghost use Rattle.spf_lex.specs.Language.{Language, are_apart, kind_by, lookup};

use crate::lexeme::Lexeme;

/// A text that a language quotes, and its kind.
#[derive(Clone, Copy)]
pub struct Quoted<'a, K> {
    pub text: &'a [u8],
    pub kind: K,
}

/// The kind of a quoted text, if it is one. Linear in the table.
pub fn find<K: Copy>(table: &[Quoted<'_, K>], text: &[u8]) -> Option<K>
    ensures { result ≡ lookup (map (λ entry. (entry.text.now, entry.kind)) table.now) text.now }
{
    for entry in table {
        if entry.text == text {
            return Some(entry.kind);
        }
    }
    None
}

/// What a language tells apart of a token. Two kinds are the same only if they are one value.
pub trait TokenKind: Copy {
    ghost same: { Self → Self → Bool };

    ghost language: { Language Self };

    /// Whether the token is of the other kind.
    fn is(self, other: Self) -> bool
        ensures { result ≡ same self other };

    /// The kind of a text that the language quotes, if it is one.
    fn quoted(text: &[u8]) -> Option<Self>
        ensures { result ≡ lookup language.quoted text.now };

    /// The kind of a word that isn't quoted.
    fn name() -> Self
        ensures { result ≡ language.name };

    /// The kind of a number of value 1.
    fn one() -> Self
        ensures { result ≡ language.one };

    /// The kind of any other number.
    fn number() -> Self
        ensures { result ≡ language.number };

    /// The kind of a symbol that isn't quoted.
    fn other() -> Self
        ensures { result ≡ language.other };

    ghost exact: { IsExact same };

    ghost apart: { are_apart same language ≡ true };
}

/// The kind of a token with these bytes. Linear in the language's table, constant for a number.
pub(crate) fn kind_of<K: TokenKind>(text: &[u8], lexeme: Lexeme) -> K
    ensures { result ≡ kind_by K.language text.now lexeme }
{
    match lexeme {
        Lexeme::Number(1) => K::one(),
        Lexeme::Number(_) => K::number(),
        Lexeme::Word => K::quoted(text).unwrap_or(K::name()),
        Lexeme::Symbol => K::quoted(text).unwrap_or(K::other()),
    }
}
