//! A cursor over the tokens of a text, which gives each its kind as it is reached.

ghost use Rattle.std.specs.Prelude.{◌≡◌, ◌≤◌, drop, length};
ghost use Rattle.std.specs.List.{list_any};
ghost use Rattle.spf_lex.specs.Cursor.{next_in};
ghost use Rattle.spf_lex.specs.Language.{tokens_of, value_in};
ghost use Rattle.spf_lex.specs.Language as language;
ghost use Rattle.spf_lex.specs.Production.{text_of_token, token};
ghost use Rattle.spf_lex.specs.Reader.{Follows, Reads, Stays, Takes, after, sees};
ghost use Rattle.spf_lex.specs.Reading.{is_next_of};
ghost use Rattle.spf_lex.specs.Tokens.{texts};

use crate::language::{TokenKind, kind_of};
use crate::lexeme::Lexeme;
use crate::token_list::Tokens;
use spf_base::{Name, NoMemory};
use std::alloc::{AllocError, Global};
use std::marker::Model;
use thiserror::Error;

/// A token: its number in the text, and its value where it is a number.
#[derive(Clone, Copy)]
pub struct Token {
    pub at: u32,
    pub value: u64,
}

/// The token that comes next, or the end, can't stand there.
#[derive(Debug, Drop, Error)]
#[error("unexpected")]
pub struct Unexpected;

/// Why a reader stopped.
#[derive(Debug, Drop, Error)]
pub enum ReadFault {
    /// The token that comes next, or the end, can't stand there.
    #[error("syntax")]
    Syntax,
    #[error("out of memory")]
    Memory,
}

impl From<Unexpected> for ReadFault {
    ghost use Rattle.spf_lex.specs.declared.cursor.ReadFault.TheVariants.{Syntax};

    ghost from_gives = { λ _ fault. fault ≡ Syntax };

    fn from(_unexpected: Unexpected) -> ReadFault {
        ReadFault::Syntax
    }
}

impl From<AllocError> for ReadFault {
    ghost use Rattle.spf_lex.specs.declared.cursor.ReadFault.TheVariants.{Memory};

    ghost from_gives = { λ _ fault. fault ≡ Memory };

    fn from(_error: AllocError) -> ReadFault {
        ReadFault::Memory
    }
}

impl From<NoMemory> for ReadFault {
    ghost use Rattle.spf_lex.specs.declared.cursor.ReadFault.TheVariants.{Memory};

    ghost from_gives = { λ _ fault. fault ≡ Memory };

    fn from(_error: NoMemory) -> ReadFault {
        ReadFault::Memory
    }
}

/// The kind of a token, and its value where it is a number.
#[derive(Clone, Copy)]
pub struct Next<K> {
    pub kind: K,
    pub value: u64,
}

/// The value of a token, which is 0 where it is no number.
fn value_of(lexeme: Lexeme) -> u64
    ensures { result ≡ value_in lexeme }
{
    match lexeme {
        Lexeme::Number(value) => value,
        _ => 0,
    }
}

/// Whether the kind is one of these. Linear in them.
fn is_any<K: TokenKind>(kind: K, kinds: &[K]) -> bool
    ensures { result ≡ list_any (K.same kind) kinds.now }
{
    kinds.iter().any(|other| kind.is(*other))
}

/// The kind and the value of token `at`, or `None` behind the last.
fn next_at<K: TokenKind>(tokens: &Tokens, at: u32) -> Option<Next<K>>
    requires { at ≤ length (texts tokens.now) }
    ensures { result ≡ next_in (drop at (tokens_of K.language (texts tokens.now))) }
{
    if at == tokens.len() {
        return None;
    }
    let lexeme = tokens.lexeme(at);
    Some(Next {
        kind: kind_of(tokens.text(at), lexeme),
        value: value_of(lexeme),
    })
}

/// What is left of the tokens of a text. A reader that stops at a fault leaves the tokens from the fault on.
///
/// The kind of a token is found once, as the cursor reaches it.
#[derive(Drop)]
pub struct Cursor<'a, K: TokenKind> {
    tokens: &'a Tokens<'a>,
    at: u32,
    next: Option<Next<K>>,
}

impl<'a, K: TokenKind> Model for Cursor<'a, K> {
    ghost use Rattle.std.specs.Prelude.{List, drop};
    ghost use Rattle.spf_lex.specs.Language.{Lexed, tokens_of};
    ghost use Rattle.spf_lex.specs.Tokens.{texts};
    ghost use Rattle.spf_lex.specs.Cursor.{IsAt};

    ghost Value = { List (Lexed K) };

    ghost view = { λ cursor. drop cursor.at (tokens_of K.language (texts cursor.tokens.now)) };

    ghost invariant = { λ cursor. IsAt K.language (texts cursor.tokens.now) cursor.at cursor.next };
}

impl<'a, K: TokenKind> Cursor<'a, K> {
    /// The tokens from number `from` on.
    pub fn new(tokens: &'a Tokens<'a>, from: u32) -> Cursor<'a, K>
        requires { from ≤ length (texts tokens.now) }
        ensures { result ≡ drop from (tokens_of K.language (texts tokens.now)) }
    {
        Cursor {
            tokens,
            at: from,
            next: next_at(tokens, from),
        }
    }

    /// Another cursor at the same token.
    pub fn fork(&self) -> Cursor<'a, K>
        ensures { result ≡ self.now }
    {
        Cursor {
            tokens: self.tokens,
            at: self.at,
            next: self.next,
        }
    }

    /// Goes to where a fork has read a part, or stays where memory ran out on the way.
    pub fn follow<A>(
        &mut self,
        fork: Cursor<'a, K>,
        part: Result<A, ReadFault>,
    ) -> Result<A, ReadFault>
        ensures part { result ≡ part }
        ensures rest { Follows self.old fork.entry part self.new }
    {
        match part {
            Err(ReadFault::Memory) => Err(ReadFault::Memory),
            part => {
                *self = fork;
                part
            }
        }
    }

    /// How many tokens are left.
    pub fn left(&self) -> u32
        ensures { result ≡ length self.now }
    {
        self.tokens.len() - self.at
    }

    /// Whether a token of the kind comes next.
    pub fn sees(&self, kind: K) -> bool
        ensures { result ≡ sees K.same kind self.now }
    {
        match self.next {
            Some(next) => next.kind.is(kind),
            None => false,
        }
    }

    /// Whether a token of one of these kinds comes next. Linear in them.
    pub fn sees_any(&self, kinds: &[K]) -> bool
        ensures { result ≡ is_next_of K.same kinds.now (language.kinds self.now) }
    {
        match self.next {
            Some(next) => is_any(next.kind, kinds),
            None => false,
        }
    }

    /// Goes past the next token, if there is one.
    fn advance(&mut self)
        ensures { self.new ≡ drop 1 self.old }
    {
        if self.at < self.tokens.len() {
            self.at += 1;
            self.next = next_at(self.tokens, self.at);
        }
    }

    /// Takes a token of the kind, if it comes next.
    pub fn eat(&mut self, kind: K) -> bool
        ensures took { result ≡ sees K.same kind self.old }
        ensures rest { self.new ≡ after K.same kind self.old }
    {
        let sees = self.sees(kind);
        if sees {
            self.advance();
        }
        sees
    }

    /// Takes a token of the kind, which has to come next.
    pub fn expect(&mut self, kind: K) -> Result<Token, Unexpected>
        ensures { Takes ((token {same = K.same} kind).read self.old) result self.new }
    {
        match self.next {
            Some(next) if next.kind.is(kind) => {
                let token = Token {
                    at: self.at,
                    value: next.value,
                };
                self.advance();
                Ok(token)
            }
            _ => Err(Unexpected),
        }
    }

    /// Takes a name, which has to come next, and copies it. Linear in the name.
    pub fn name(&mut self, alloc: Global) -> Result<Name, ReadFault>
        ensures name { Reads ((text_of_token {same = K.same} K.language.name).read self.old) result self.new }
        ensures memory { Stays self.old result self.new }
    {
        if !self.sees(K::name()) {
            return Err(ReadFault::Syntax);
        }
        let name = Name::copy(alloc, self.tokens.text(self.at))?;
        self.advance();
        Ok(name)
    }
}
