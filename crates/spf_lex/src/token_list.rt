//! The tokens of a text, and where they stand.

ghost use Rattle.std.specs.Prelude.{◌≡◌, ◌<◌, ◌≤◌, length, map, slice_get, slice_range, Some, All};

use crate::lexeme::Lexeme;
use crate::place::place_at;
use spf_base::Place;
use std::marker::Model;

/// Where a token stands: the number of its first byte, and that of the byte behind its last.
#[derive(Clone, Copy)]
pub struct Span {
    pub start: u32,
    pub end: u32,
}

/// The tokens of a text in their order, over the borrowed text. Contracts see the text and the tokens' spans.
#[derive(Drop)]
pub struct Tokens<'a> {
    text: &'a [u8],
    spans: Vec<Span>,
    lexemes: Vec<Lexeme>,
}

impl<'a> Model for Tokens<'a> {
    ghost use Rattle.spf_lex.specs.Tokens.{Tokenized, AreTokens};

    ghost Value = { Tokenized };

    ghost view = { λ tokens. record { text = tokens.text.now; spans = tokens.spans.items } };

    ghost invariant = { λ tokens. AreTokens tokens.text.now tokens.spans.items tokens.lexemes.items };
}

impl<'a> Tokens<'a> {
    ghost use Rattle.spf_lex.specs.Place.{place_of};
    ghost use Rattle.spf_lex.specs.Lexeme.{lexeme_of};
    ghost use Rattle.spf_lex.specs.Tokens.{AreTokens, HasTokens, IsTokenText, IsTokenized, places, texts};

    /// The tokens at these spans of the text, and what each is.
    pub(crate) fn new(text: &'a [u8], spans: Vec<Span>, lexemes: Vec<Lexeme>) -> Tokens<'a>
        requires { AreTokens text.now spans.items lexemes.items }
        ensures { result ≡ record { text = text.now; spans = spans.items } }
    {
        Tokens {
            text,
            spans,
            lexemes,
        }
    }

    /// How many tokens there are.
    pub fn len(&self) -> u32
        ensures count { result ≡ length (texts self.now) }
        ensures tokens { HasTokens self.now.text self.now.spans }
        ensures texts { All IsTokenText (texts self.now) }
        ensures lexed { IsTokenized self.now.text self.now.spans }
    {
        self.spans.len() as u32
    }

    /// Where token `n` stands.
    fn span(&self, n: u32) -> Span
        requires { n < length (texts self.now) }
        ensures span { slice_get self.now.spans n ≡ Some result }
        ensures ordered { result.start < result.end }
        ensures within { result.end ≤ length self.now.text }
        ensures short { length self.now.text ≤ 67108864 }
        ensures token { IsTokenText (slice_range self.now.text result.start result.end) }
    {
        self.spans[n as usize]
    }

    /// The bytes of token `n`, from 0.
    pub fn text(&self, n: u32) -> &[u8]
        requires { n < length (texts self.now) }
        ensures text { slice_get (texts self.now) n ≡ Some result.now }
        ensures token { IsTokenText result.now }
    {
        let span = self.span(n);
        &self.text[span.start as usize..span.end as usize]
    }

    /// What token `n` is.
    pub fn lexeme(&self, n: u32) -> Lexeme
        requires { n < length (texts self.now) }
        ensures { slice_get (map lexeme_of (texts self.now)) n ≡ Some result }
    {
        self.lexemes[n as usize]
    }

    /// The place of token `n`. Linear in the text before it.
    pub fn place(&self, n: u32) -> Place
        requires { n < length (texts self.now) }
        ensures { slice_get (places self.now) n ≡ Some result }
    {
        let span = self.span(n);
        place_at(self.text, span.start as usize)
    }

    /// The place just past the last byte. Linear in the text.
    pub fn end(&self) -> Place
        ensures { result ≡ place_of self.now.text (length self.now.text) }
    {
        place_at(self.text, self.text.len())
    }
}
