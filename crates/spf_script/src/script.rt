//! A script that some text spells, and reading one.

ghost use Rattle.std.specs.Prelude.{◌≡◌, ◌≤◌, ℕ, List, length};
ghost use Rattle.spf_lex.specs.BundleWords.{bundle_words};
ghost use Rattle.spf_base.specs.declared.place.Place.{Place};
ghost use Rattle.spf_lex.specs.Standing.{StandsAt, IsSyntaxFault};
ghost use Rattle.spf_lex.specs.declared.text_kind.TextKind.{TextKind};
ghost use Rattle.spf_lex.specs.Tokens.{IsTokenized, Tokenized, texts};
ghost use Rattle.spf_script.specs.Parsed.{IsAnswer, IsParsed};
ghost use Rattle.spf_script.specs.Productions as p;
ghost use Rattle.spf_script.specs.declared.step.TextStep.{TextStep};

use crate::step::TextStep;
use crate::steps::Steps;
use spf_base::Place;
use spf_lex::{Kind, PartFault, TextKind, Tokens, part_at};
use sqlite_items::Items;
use std::alloc::Global;
use std::marker::Model;
use thiserror::Error;

/// A script that some text is parsed to, seen as the list of its steps.
#[derive(Drop)]
pub struct Script {
    steps: Items<TextStep>,
}

impl Model for Script {
    ghost use Rattle.std.specs.Prelude.{List};
    ghost use Rattle.spf_script.specs.declared.step.TextStep.{TextStep};

    ghost Value = { List TextStep };

    ghost use Rattle.spf_script.specs.Parsed.{IsParsed};

    ghost view = { λ script. script.steps };

    ghost invariant = { λ script. IsParsed script.steps };
}

impl Script {
    /// The steps, one for each of the text, in its order. Constant time.
    pub fn steps(&self) -> &[TextStep]
        ensures steps { result.now ≡ self.now }
        ensures parsed { IsParsed result.now }
    {
        self.steps.as_slice()
    }
}

/// The script of steps that stand somewhere among the tokens. Constant time.
pub fn script_of(tokens: &Tokens, steps: Steps) -> Script
    requires stands { (from : ℕ) × (next : ℕ) × StandsAt bundle_words p.script tokens.now from next steps }
    requires lexed { IsTokenized tokens.now.text tokens.now.spans }
    ensures { result ≡ steps }
{
    Script {
        steps: steps.into_items(),
    }
}

/// Why `parse` gave no script.
#[derive(Debug, Drop, Error)]
pub enum ScriptTextFault {
    /// The token there, or the end, is the first that no script has there.
    #[error("syntax")]
    Syntax { place: Place, kind: TextKind },
    #[error("out of memory")]
    Memory,
}

/// Reads the script that stands from token `from` on, and gives the number of the token behind it. Linear in its tokens.
pub fn parse(alloc: Global, tokens: &Tokens, from: u32) -> Result<(Script, u32), ScriptTextFault>
    requires { from ≤ length (texts tokens.now) }
    ensures { IsAnswer tokens.now from result }
{
    match part_at::<Kind, Steps>(alloc, tokens, from) {
        Ok((steps, next)) => Ok((script_of(tokens, steps), next)),
        Err(PartFault::Syntax { place, kind }) => Err(ScriptTextFault::Syntax { place, kind }),
        Err(PartFault::Memory) => Err(ScriptTextFault::Memory),
    }
}

/// Law: from a token on at most one script stands, and where one stands there is no fault of syntax.
pub fn one_script_stands()
    ensures one { (tokens : Tokenized) (from n m : ℕ) (a b : List TextStep) → StandsAt bundle_words p.script tokens from n a → StandsAt bundle_words p.script tokens from m b →
        (n ≡ m) × (a ≡ b) }
    ensures no_fault { (tokens : Tokenized) (from n : ℕ) (a : List TextStep) (place : Place) (kind : TextKind) →
        StandsAt bundle_words p.script tokens from n a → ¬ IsSyntaxFault bundle_words p.script tokens from place kind }
{}
