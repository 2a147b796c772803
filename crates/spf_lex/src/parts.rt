//! Finding what a production makes of the tokens of a text, or the fault of syntax there.

ghost use Rattle.std.specs.Prelude.{◌≡◌, ◌≤◌, length};
ghost use Rattle.spf_lex.specs.Standing.{FindsBy, ReadsAllBy, kind_from, place_from};
ghost use Rattle.spf_lex.specs.Tokens.{IsTokenized, texts};
ghost use Rattle.spf_lex.specs.declared.parts.PartFault.TheVariants.{Syntax};

use crate::cursor::{Cursor, ReadFault};
use crate::language::TokenKind;
use crate::reader::Part;
use crate::text_kind::TextKind;
use crate::token_list::Tokens;
use spf_base::Place;
use std::alloc::Global;
use thiserror::Error;

/// Why no part was found.
#[derive(Debug, Drop, Error)]
pub enum PartFault {
    /// The token there, or the end, is the first that no such part has there.
    #[error("syntax")]
    Syntax { place: Place, kind: TextKind },
    #[error("out of memory")]
    Memory,
}

/// A part that is looked for in a text: what its reader leaves is what the tokens end in.
pub trait TextPart<K: TokenKind>: Part<K> {
    ghost use Rattle.spf_lex.specs.Suffix.{LeavesSuffix};

    ghost suffix: { LeavesSuffix Self.reading };
}

/// The place of token `n`, or the one just past the last byte. Linear in the text.
pub fn place_from(tokens: &Tokens, n: u32) -> Place
    ensures { result ≡ place_from tokens.now n }
{
    if n < tokens.len() {
        tokens.place(n)
    } else {
        tokens.end()
    }
}

/// The fault of syntax at token `n`, or at the end.
pub fn syntax_at(tokens: &Tokens, n: u32) -> PartFault
    ensures { result ≡ Syntax (place_from tokens.now n) (kind_from tokens.now n) }
{
    let kind = if n < tokens.len() {
        TextKind::Unexpected
    } else {
        TextKind::End
    };
    PartFault::Syntax {
        place: place_from(tokens, n),
        kind,
    }
}

/// The part that stands from token `from` on, and the number of the token behind it. Linear in the part's tokens.
pub fn part_at<K: TokenKind, P: TextPart<K>>(
    alloc: Global,
    tokens: &Tokens,
    from: u32,
) -> Result<(P, u32), PartFault>
    requires { from ≤ length (texts tokens.now) }
    ensures found { FindsBy K.language tokens.now P.reading from result }
    ensures lexed { IsTokenized tokens.now.text tokens.now.spans }
{
    let count = tokens.len();
    let mut cursor = Cursor::new(tokens, from);
    match P::parse(alloc, &mut cursor) {
        Ok(part) => Ok((part, count - cursor.left())),
        Err(ReadFault::Syntax) => Err(syntax_at(tokens, count - cursor.left())),
        Err(ReadFault::Memory) => Err(PartFault::Memory),
    }
}

/// The part that all tokens are. Linear in the tokens.
pub fn whole<K: TokenKind, P: TextPart<K>>(alloc: Global, tokens: &Tokens) -> Result<P, PartFault>
    ensures found { ReadsAllBy K.language tokens.now P.reading result }
    ensures lexed { IsTokenized tokens.now.text tokens.now.spans }
{
    let (part, next) = part_at(alloc, tokens, 0)?;
    if next < tokens.len() {
        return Err(syntax_at(tokens, next));
    }
    Ok(part)
}
