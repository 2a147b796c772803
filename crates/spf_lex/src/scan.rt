//! From a text to its tokens.

ghost use Rattle.std.specs.Prelude.{◌≡◌, ◌≤◌, ◌^◌, ◌++◌, ◌∷◌, [], ℕ, List, All, length, decimal, Some, IfOk, IfErr};
ghost use Rattle.spf_lex.specs.Joined.{joined};
ghost use Rattle.spf_lex.specs.LexFault.{IsFaultOf};
ghost use Rattle.spf_lex.specs.declared.scan.LexFault.TheVariants.{Memory};
ghost use Rattle.spf_lex.specs.Lexeme.{number_of};
ghost use Rattle.spf_lex.specs.Spaced.{IsSpaced};
ghost use Rattle.spf_lex.specs.Tokens.{HasTokens, IsTokenText, IsTokenized, LacksToken, texts};
ghost use Rattle.spf_lex.specs.declared.token_list.Span.{Span};

use crate::gap::gap_len;
use crate::lexeme::{Lexeme, token_at};
use crate::place::place_at;
use crate::token_list::{Span, Tokens};
use spf_base::Place;
use std::alloc::Global;
use thiserror::Error;

/// Why a text has no tokens.
#[derive(Debug, Drop, Error)]
pub enum LexFault {
    /// At this place, the first such, stands no token, and nothing that may stand between tokens.
    #[error("no token at {}:{}", .place.line, .place.column)]
    NoToken { place: Place },
    /// Out of memory, which no contract foretells.
    #[error("memory")]
    Memory,
}

/// Law: a text has tokens in one way, or lacks one at one place, and not both.
pub fn one_reading()
    ensures tokens { (text : List ℕ) (a b : List Span) → HasTokens text a → HasTokens text b → a ≡ b }
    ensures fault { (text : List ℕ) (m n : ℕ) → LacksToken text m → LacksToken text n → m ≡ n }
    ensures either { (text : List ℕ) (a : List Span) (n : ℕ) → HasTokens text a → ¬ LacksToken text n }
{}

/// Law: words with a blank between two have those words as tokens, and a number
/// is such a word.
pub fn joined_words_are_read()
    ensures read { (words : List (List ℕ)) → All IsTokenText words → length (joined words) ≤ 67108864 →
        (spans : List Span) × IsTokenized (joined words) spans × (texts (record { text = joined words; spans = spans }) ≡ words) }
    // the same of texts of any length
    ensures tokens { (words : List (List ℕ)) → All IsTokenText words →
        (spans : List Span) × HasTokens (joined words) spans × (texts (record { text = joined words; spans = spans }) ≡ words) }
    ensures number { (n : ℕ) → n ≤ 2 ^ 63 → IsTokenText (decimal n) × (number_of (decimal n) ≡ Some n) }
{}

/// Law: words that stand one behind another, with blanks between two or with none where they can't run together, have
/// those words as tokens; joined words stand so.
pub fn spaced_words_are_read()
    ensures tokens { (text : List ℕ) (words : List (List ℕ)) → IsSpaced text words →
        (spans : List Span) × HasTokens text spans × (texts (record { text = text; spans = spans }) ≡ words) }
    ensures joined { (words : List (List ℕ)) → All IsTokenText words → IsSpaced (joined words) words }
{}

/// Keeps one more token.
fn keep(
    spans: &mut Vec<Span>,
    lexemes: &mut Vec<Lexeme>,
    span: Span,
    lexeme: Lexeme,
) -> Result<(), LexFault>
    ensures spans { IfOk result (λ _. spans.new.items ≡ spans.old.items ++ span ∷ []) }
    ensures lexemes { IfOk result (λ _. lexemes.new.items ≡ lexemes.old.items ++ lexeme ∷ []) }
    ensures memory { IfErr result (λ fault. fault ≡ Memory) }
{
    spans.push(span).map_err(|_| LexFault::Memory)?;
    lexemes.push(lexeme).map_err(|_| LexFault::Memory)
}

/// The tokens of a text, in one pass. Linear in the text, and 24 bytes are kept for each token.
pub fn tokens(alloc: Global, text: &[u8]) -> Result<Tokens<'_>, LexFault>
    requires { length text.now ≤ 67108864 }
    ensures text { IfOk result (λ tokens. tokens.text ≡ text.now) }
    ensures found { IfOk result (λ tokens. HasTokens text.now tokens.spans) }
    ensures fault { IfErr result (IsFaultOf text.now) }
{
    let mut spans = Vec::new(alloc);
    let mut lexemes = Vec::new(alloc);
    let mut at = 0;
    while at < text.len() {
        let rest = &text[at..];
        if let Some(len) = gap_len(rest) {
            at += len;
        } else if let Some(found) = token_at(rest) {
            let end = at + found.len;
            let span = Span {
                start: at as u32,
                end: end as u32,
            };
            keep(&mut spans, &mut lexemes, span, found.lexeme)?;
            at = end;
        } else {
            return Err(LexFault::NoToken {
                place: place_at(text, at),
            });
        }
    }
    Ok(Tokens::new(text, spans, lexemes))
}
