//! The words that the program is called with.

ghost use Rattle.std.specs.Prelude.{◌≡◌, map, IfOk, IfErr, IfSome, IfNone, string_bytes};
ghost use Rattle.spf_top.specs.Words.{AsksFor, IsRefusedAt, word_of};
ghost use Rattle.spf_top.specs.declared.words.Asked.{Asked};

/// What a bundle is planned for.
#[derive(Clone, Copy)]
pub enum Goal {
    /// The cells that the loops leave.
    Run,
    /// The orders, packings and tiles of the plan.
    Plan,
    /// The text of the plan's executor.
    Emit,
}

/// A command, which one word asks for.
#[derive(Clone, Copy)]
pub enum Asked {
    /// A bundle is planned.
    Bundle(Goal),
    /// The results of a calculator text.
    Calc,
}

/// The command of this word.
fn command_of(word: &str) -> Option<Asked>
    ensures named { IfSome result (λ asked. word.now ≡ word_of asked) }
    ensures unknown { IfNone result ((asked : Asked) → word.now ≡ word_of asked → ⊥) }
{
    match word {
        "run" => Some(Asked::Bundle(Goal::Run)),
        "plan" => Some(Asked::Bundle(Goal::Plan)),
        "emit" => Some(Asked::Bundle(Goal::Emit)),
        "calc" => Some(Asked::Calc),
        _ => None,
    }
}

/// What the words ask for, or the number, from 1, of the first word that isn't accepted where it stands, or of the one that
/// is missing.
pub fn asked_by(words: &[String]) -> Result<Asked, u32>
    ensures asked { IfOk result (AsksFor (map string_bytes words.now)) }
    ensures refused { IfErr result (IsRefusedAt (map string_bytes words.now)) }
{
    if words.is_empty() {
        return Err(1);
    }
    let Some(asked) = command_of(words[0].as_str()) else {
        return Err(1);
    };
    if words.len() > 1 {
        return Err(2);
    }
    Ok(asked)
}
