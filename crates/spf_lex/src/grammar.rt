//! Grammars as data over kinds of tokens, and one theorem on reading for all of them.
//!
//! A grammar is a value of `Grammar`, built of `Nothing`, `One`, `Then`, `Or` and `Many`, and `In` says which lists of
//! kinds are its texts. `run` is a reader that looks at the next token alone, and `is_clear` is a test that says that
//! this is enough. It computes: a crate shows it of its own grammar by `refl`.

ghost use Rattle.std.specs.Prelude.{◌≡◌, ◌↔◌, true, List, [], ◌++◌, Ok, Err};
ghost use Rattle.spf_lex.specs.Grammar.{Grammar, In, IsReading};
ghost use Rattle.spf_lex.specs.LookAhead.{extension, is_clear};
ghost use Rattle.spf_lex.specs.Reading.{run};
ghost use Rattle.spf_lex.specs.Derivation.{Derivation, Spells, derive, IsDerivation};

use crate::language::TokenKind;

/// Law: a clear grammar is read exactly.
///
/// The reader takes as many kinds as some text of the grammar begins with, and answers `Ok` only where they are a text.
pub fn reading_is_exact<K: TokenKind>()
    // the longest front that some text begins with is in front of the rest, and the answer says whether it is a text
    ensures reading { (grammar : Grammar K) (kinds : List K) → is_clear K.same grammar ≡ true →
        IsReading grammar kinds (run K.same grammar kinds) }
    // the texts are the lists that are read to their end
    ensures whole { (grammar : Grammar K) (kinds : List K) → is_clear K.same grammar ≡ true →
        (In grammar kinds ↔ (run K.same grammar kinds ≡ Ok [])) }
{}

/// Law: a text of a clear grammar has one derivation, and it is read exactly.
pub fn derivation_is_exact<K: TokenKind, T>()
    // reading stops where `run` does, and the tokens that it took are the text with the derivation that it gives
    ensures derivation { (kind : T → K) (grammar : Grammar K) (tokens : List T) → is_clear K.same grammar ≡ true →
        IsDerivation kind grammar tokens (derive K.same kind grammar tokens) }
    // a text is derived in one way
    ensures one { (kind : T → K) (grammar : Grammar K) (tokens : List T) (a b : Derivation T grammar) →
        is_clear K.same grammar ≡ true → Spells kind grammar tokens a → Spells kind grammar tokens b → a ≡ b }
{}

/// Law: where no text of a clear grammar begins with another one, as where a
/// closing brace ends each, the text in front of some tokens is one, and no reading stops there at a fault.
pub fn front_is_exact<K: TokenKind>()
    ensures one { (grammar : Grammar K) (a b rest left : List K) → is_clear K.same grammar ≡ true → extension grammar ≡ [] →
        In grammar a → In grammar b → a ++ rest ≡ b ++ left → a ≡ b }
    ensures no_fault { (grammar : Grammar K) (front rest left : List K) → is_clear K.same grammar ≡ true → extension grammar ≡ [] →
        In grammar front → ¬ IsReading grammar (front ++ rest) (Err left) }
{}
