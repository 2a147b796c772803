//! Printing a script as a text of the script language.

ghost use Rattle.std.specs.Prelude.{◌≡◌, ◌++◌, codes, OnOk, IfOk, IsTrue};
ghost use Rattle.spf_lex.specs.Joined.{has_no_blank, joined};
ghost use Rattle.spf_script.specs.Parsed.{IsTextOf};
ghost use Rattle.spf_script.specs.Printed.{order_words, seed_words, step_words, words_of};

use crate::script::Script;
use crate::step::{TextSeed, TextStep};
use spf_base::{Name, NoMemory};
use spf_lex::Words;
use std::alloc::Global;

/// Writes a step that orders a loop.
fn push_order(words: &mut Words, word: &[u8], of: &Name, by: &Name) -> Result<(), NoMemory>
    requires { IsTrue (has_no_blank word.now) }
    ensures { OnOk result (words.new ≡ words.old ++ order_words word.now of.now by.now) }
{
    words.push(word)?;
    words.push_name(of)?;
    words.push(b"by")?;
    words.push_name(by)?;
    words.push(b";")
}

fn push_seed(words: &mut Words, seed: TextSeed) -> Result<(), NoMemory>
    ensures { OnOk result (words.new ≡ words.old ++ seed_words seed) }
{
    match seed {
        TextSeed::Block => words.push(b"block"),
        TextSeed::Spread => words.push(b"spread"),
        TextSeed::Plug(number) => {
            words.push(b"plug")?;
            words.push_number(number)
        }
    }
}

fn push_step(words: &mut Words, step: &TextStep) -> Result<(), NoMemory>
    ensures { OnOk result (words.new ≡ words.old ++ step_words step.now) }
{
    match step {
        TextStep::Cpack { arrays, by } => {
            words.push(b"cpack")?;
            words.push_names(arrays.as_slice())?;
            words.push(b"by")?;
            words.push_name(by)?;
            words.push(b";")
        }
        TextStep::LexGroup { of, by } => push_order(words, b"lexgroup", of, by),
        TextStep::LexSort { of, by } => push_order(words, b"lexsort", of, by),
        TextStep::Bucket { of, by, size } => {
            words.push(b"bucket")?;
            words.push_name(of)?;
            words.push(b"by")?;
            words.push_name(by)?;
            words.push(b"size")?;
            words.push_number(*size)?;
            words.push(b";")
        }
        TextStep::Tile {
            of,
            step,
            seed,
            parts,
        } => {
            words.push(b"tile")?;
            words.push_name(of)?;
            words.push(b"at")?;
            words.push_number(*step)?;
            words.push(b"seed")?;
            push_seed(words, *seed)?;
            words.push_number(*parts)?;
            words.push(b";")
        }
        TextStep::TilePack { arrays } => {
            words.push(b"tilepack")?;
            words.push_names(arrays.as_slice())?;
            words.push(b";")
        }
    }
}

/// The words of these steps as a script, with a blank between two.
fn script_text(alloc: Global, steps: &[TextStep]) -> Result<Vec<u8>, NoMemory>
    ensures { IfOk result (λ text. text.items ≡ joined (words_of steps.now)) }
{
    let mut words = Words::new(alloc);
    words.push(b"script")?;
    words.push(b"{")?;
    for step in steps {
        push_step(&mut words, step)?;
    }
    words.push(b"}")?;
    Ok(words.into_text())
}

/// A text of the script: the words of its steps, with a blank between two. Linear in the steps and their names.
pub fn print(alloc: Global, script: &Script) -> Result<Vec<u8>, NoMemory>
    ensures words { IfOk result (λ text. text.items ≡ joined (words_of script.now)) }
    ensures parsed { IfOk result (λ text. IsTextOf text.items script.now) }
{
    script_text(alloc, script.steps())
}
