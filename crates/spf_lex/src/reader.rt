//! Readers of what stands one behind another: repetitions, lists with a token between two parts, and keywords.

ghost use Rattle.std.specs.Prelude.{◌≡◌, ◌++◌, Bool, List, map};
ghost use Rattle.spf_lex.specs.Derivation.{made};
ghost use Rattle.spf_lex.specs.Language.{Lexed};
ghost use Rattle.spf_lex.specs.Reader.{Reader, Reads, Stays, Takes, enclosed, further, keyword, list_by, repeat, sees};

use crate::cursor::{Cursor, ReadFault, Token, Unexpected};
use crate::language::TokenKind;
use spf_base::Name;
use sqlite_items::Items;
use std::alloc::Global;

/// What a production of a language makes, and its reader. A language writes `begins` and `parse`, and calls `read`.
pub trait Part<K: TokenKind>: Drop {
    ghost begins: { List (Lexed K) → Bool };

    ghost reading: { Reader K Self };

    /// Whether the next token begins such a part.
    fn begins(tokens: &Cursor<K>) -> bool
        ensures { result ≡ begins tokens.now };

    /// Reads such a part with a cursor that is let go of where memory runs out.
    fn parse(alloc: Global, tokens: &mut Cursor<K>) -> Result<Self, ReadFault>
        ensures { Reads (reading tokens.old) result tokens.new };

    /// Reads such a part. Where memory runs out, the cursor is as it was.
    fn read(alloc: Global, tokens: &mut Cursor<K>) -> Result<Self, ReadFault>
        ensures part { Reads (reading tokens.old) result tokens.new }
        ensures memory { Stays tokens.old result tokens.new }
    {
        let mut fork = tokens.fork();
        let part = Self::parse(alloc, &mut fork);
        tokens.follow(fork, part)
    }
}

impl<K: TokenKind> Part<K> for Token {
    ghost use Rattle.spf_lex.specs.Production.{token};
    ghost use Rattle.spf_lex.specs.Reader.{sees};

    ghost begins = { sees K.same K.language.name };

    ghost reading = { (token {same = K.same} K.language.name).read };

    fn begins(tokens: &Cursor<K>) -> bool {
        tokens.sees(K::name())
    }

    /// Takes a name.
    fn parse(_alloc: Global, tokens: &mut Cursor<K>) -> Result<Token, ReadFault> {
        Ok(tokens.expect(K::name())?)
    }
}

impl<K: TokenKind> Part<K> for Name {
    ghost use Rattle.spf_lex.specs.Production.{text_of_token};
    ghost use Rattle.spf_lex.specs.Reader.{sees};

    ghost begins = { sees K.same K.language.name };

    ghost reading = { (text_of_token {same = K.same} K.language.name).read };

    fn begins(tokens: &Cursor<K>) -> bool {
        tokens.sees(K::name())
    }

    /// Takes a name and copies it.
    fn parse(alloc: Global, tokens: &mut Cursor<K>) -> Result<Name, ReadFault> {
        tokens.name(alloc)
    }
}

fn parse_repeated<K: TokenKind, P: Part<K>>(
    alloc: Global,
    tokens: &mut Cursor<K>,
) -> Result<Items<P>, ReadFault>
    ensures { Reads (repeat P.begins P.reading tokens.old) result tokens.new }
{
    let mut parts = Items::new(alloc);
    for _turn in 0..tokens.left() {
        if !P::begins(tokens) {
            return Ok(parts);
        }
        let part = P::parse(alloc, tokens)?;
        parts.push(part)?;
    }
    Ok(parts)
}

/// Reads parts as long as one begins. Where memory runs out, the cursor is as it was. Linear in their tokens.
pub fn repeated<K: TokenKind, P: Part<K>>(
    alloc: Global,
    tokens: &mut Cursor<K>,
) -> Result<Items<P>, ReadFault>
    ensures parts { Reads (repeat P.begins P.reading tokens.old) result tokens.new }
    ensures memory { Stays tokens.old result tokens.new }
{
    let mut fork = tokens.fork();
    let parts = parse_repeated(alloc, &mut fork);
    tokens.follow(fork, parts)
}

fn parse_enclosed<K: TokenKind, P: Part<K>>(
    alloc: Global,
    tokens: &mut Cursor<K>,
    opening: K,
    closing: K,
) -> Result<Items<P>, ReadFault>
    ensures { Reads (enclosed K.same opening closing (repeat P.begins P.reading) tokens.old) result tokens.new }
{
    tokens.expect(opening)?;
    let parts = parse_repeated(alloc, tokens)?;
    tokens.expect(closing)?;
    Ok(parts)
}

/// Reads parts as long as one begins, between a token of one kind and a token of the other. Where memory runs out, the
/// cursor is as it was. Linear in their tokens.
pub fn enclosed<K: TokenKind, P: Part<K>>(
    alloc: Global,
    tokens: &mut Cursor<K>,
    opening: K,
    closing: K,
) -> Result<Items<P>, ReadFault>
    ensures parts { Reads (enclosed K.same opening closing (repeat P.begins P.reading) tokens.old) result tokens.new }
    ensures memory { Stays tokens.old result tokens.new }
{
    let mut fork = tokens.fork();
    let parts = parse_enclosed(alloc, &mut fork, opening, closing);
    tokens.follow(fork, parts)
}

/// Reads a part behind a token of this kind.
fn further<K: TokenKind, P: Part<K>>(
    alloc: Global,
    tokens: &mut Cursor<K>,
    kind: K,
) -> Result<P, ReadFault>
    ensures { Reads (further K.same kind P.reading tokens.old) result tokens.new }
{
    tokens.expect(kind)?;
    P::parse(alloc, tokens)
}

/// Reads further parts onto a list, each behind a token of this kind.
fn further_parts<K: TokenKind, P: Part<K>>(
    alloc: Global,
    tokens: &mut Cursor<K>,
    kind: K,
    mut parts: Items<P>,
) -> Result<Items<P>, ReadFault>
    ensures { Reads (made (λ others. parts ++ others) (repeat (sees K.same kind) (further K.same kind P.reading) tokens.old)) result tokens.new }
{
    for _turn in 0..tokens.left() {
        if !tokens.sees(kind) {
            return Ok(parts);
        }
        let part = further(alloc, tokens, kind)?;
        parts.push(part)?;
    }
    Ok(parts)
}

#[tactic(auto, unfolding(crate::specs::Reader::list_by))]
fn parse_separated<K: TokenKind, P: Part<K>>(
    alloc: Global,
    tokens: &mut Cursor<K>,
    kind: K,
) -> Result<Items<P>, ReadFault>
    ensures { Reads (list_by K.same kind P.reading tokens.old) result tokens.new }
{
    let first = P::parse(alloc, tokens)?;
    let mut parts = Items::new(alloc);
    parts.push(first)?;
    further_parts(alloc, tokens, kind, parts)
}

/// Reads a part, and further ones behind a token of this kind each. Where memory runs out, the cursor is as it was. Linear
/// in their tokens.
pub fn separated<K: TokenKind, P: Part<K>>(
    alloc: Global,
    tokens: &mut Cursor<K>,
    kind: K,
) -> Result<Items<P>, ReadFault>
    ensures parts { Reads (list_by K.same kind P.reading tokens.old) result tokens.new }
    ensures memory { Stays tokens.old result tokens.new }
{
    let mut fork = tokens.fork();
    let parts = parse_separated(alloc, &mut fork, kind);
    tokens.follow(fork, parts)
}

/// Takes a token of a kind of the table, and gives the value beside it. Linear in the table.
pub fn keyword<K: TokenKind, A: Copy>(
    tokens: &mut Cursor<K>,
    table: &[(K, A)],
) -> Result<A, Unexpected>
    ensures { Takes (keyword K.same table.now tokens.old) result tokens.new }
{
    for (kind, value) in table {
        if tokens.eat(*kind) {
            return Ok(*value);
        }
    }
    Err(Unexpected)
}
