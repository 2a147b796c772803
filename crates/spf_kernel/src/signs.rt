//! The signs of assignments: of each the kind of its token, and its word.

ghost use Rattle.std.specs.Prelude.{◌≡◌, ◌++◌, ◌∷◌, [], OnOk};
ghost use Rattle.spf_lex.specs.Reader.{Takes};
ghost use Rattle.spf_kernel.specs.Signs.{becomes, becomes_word};

use crate::tree::Becomes;
use spf_base::NoMemory;
use spf_lex::{Cursor, Kind, Unexpected, Words, keyword};

#[tactic(auto, unfolding(crate::specs::Signs::becomes))]
pub fn becomes(tokens: &mut Cursor<Kind>) -> Result<Becomes, Unexpected>
    ensures { Takes (becomes.read tokens.old) result tokens.new }
{
    let signs = [
        (Kind::Equals, Becomes::Put),
        (Kind::PlusEquals, Becomes::Add),
    ];
    keyword(tokens, &signs)
}

pub fn push_becomes(words: &mut Words, sign: Becomes) -> Result<(), NoMemory>
    ensures { OnOk result (words.new ≡ words.old ++ becomes_word sign ∷ []) }
{
    match sign {
        Becomes::Put => words.push(b"="),
        Becomes::Add => words.push(b"+="),
    }
}
