//! The tokens of a text, and productions over them: what every reader of bundles, scripts and certificates stands on.
//!
//! A text is words, numbers, symbols and, between them, blanks and comments. At each place the longest lexeme stands
//! (`IsToken`); a word of more than 32 bytes or a number above 2^63 is no token. Upward the tokens give one contract:
//! `tokens` finds the text's tokens (`HasTokens`), or the first place at which none stands (`LacksToken`), and a text
//! has either, and that in one way (`one_reading`). A `Tokens` borrows its text and keeps 24 bytes for each token: its
//! span, and whether it is a word, a symbol or a number of what value. Scanning is one pass, linear in the text; a place
//! is linear in the text before it, so it is worked out only for a refusal.
//!
//! A language gives each of its words a kind (`TokenKind`), and a `Cursor` goes over the tokens and tells their kinds as
//! they are reached. A production is one record (`Production`): its grammar, what is made of a derivation, its reader on
//! lists of tokens, and that the two agree. A reader in code keeps to the production's reader (`Reads`, `Takes`).
//!
//! A grammar is data over kinds of tokens (`Grammar`), with a declarative relation (`In`) and a test that computes and says
//! that a look at the next token alone is enough (`is_clear`). One theorem serves every grammar (`reading_is_exact`): what
//! is read is in the relation, and where reading stops stands the first token behind the longest front that begins some
//! text of the grammar. From it follows what finding a part among the tokens (`part_at`) and reading all of them (`whole`)
//! answer: where a text of a production stands (`StandsAt`, `IsWhole`), or the exact fault of syntax (`IsSyntaxFault`,
//! `IsWholeFault`).
//!
//! What is printed is written word by word (`Words`), and its words are read again: a text of words with a blank between
//! two has those words as its tokens (`joined_words_are_read`), and so has one with no blank where no word runs on into the
//! text behind it (`spaced_words_are_read`).
//!
//! The crate stands on spf_base, for words, places and running out of memory.
#![tactic(auto)]

mod cursor;
mod gap;
mod grammar;
mod kind;
mod language;
mod lexeme;
mod parts;
mod place;
mod reader;
mod scan;
mod text_kind;
mod token_list;
mod words;

pub use cursor::{Cursor, Next, ReadFault, Token, Unexpected};
pub use grammar::{derivation_is_exact, front_is_exact, reading_is_exact};
pub use kind::Kind;
pub use language::{Quoted, TokenKind, find};
pub use lexeme::{Lexeme, number};
pub use parts::{PartFault, TextPart, part_at, place_from, syntax_at, whole};
pub use reader::{Part, enclosed, keyword, repeated, separated};
pub use scan::{LexFault, joined_words_are_read, one_reading, spaced_words_are_read, tokens};
pub use text_kind::TextKind;
pub use token_list::{Span, Tokens};
pub use words::Words;
