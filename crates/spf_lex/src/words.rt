//! Words that are written one behind another.

ghost use Rattle.std.specs.Prelude.{◌≡◌, ◌≤◌, ◌^◌, [], ◌∷◌, ◌++◌, decimal, IsTrue, OnOk, OnErr};
ghost use Rattle.spf_lex.specs.Joined.{has_no_blank, joined, listed};

use itoa::Buffer;
use spf_base::{Name, NoMemory};
use std::alloc::Global;
use std::marker::Model;

/// A text that is written word by word. Contracts see its words.
#[derive(Drop)]
pub struct Words {
    /// The words, with a blank behind each.
    text: Vec<u8>,
}

impl Model for Words {
    ghost use Rattle.std.specs.Prelude.{List, ℕ, []};
    ghost use Rattle.spf_lex.specs.Joined.{IsEnded, split};

    ghost Value = { List (List ℕ) };

    ghost view = { λ words. split [] words.text.items };

    ghost invariant = { λ words. IsEnded words.text.items };
}

impl Words {
    pub fn new(alloc: Global) -> Words
        ensures { result ≡ [] }
    {
        Words {
            text: Vec::new(alloc),
        }
    }

    /// Writes a word behind the others.
    pub fn push(&mut self, word: &[u8]) -> Result<(), NoMemory>
        requires { IsTrue (has_no_blank word.now) }
        ensures pushed { OnOk result (self.new ≡ self.old ++ word.now ∷ []) }
        ensures unchanged { OnErr result (self.new ≡ self.old) }
    {
        self.text.reserve(word.len() + 1)?;
        self.text.extend_from_slice(word)?;
        self.text.push(b' ')?;
        Ok(())
    }

    /// Writes a name behind the others.
    pub fn push_name(&mut self, name: &Name) -> Result<(), NoMemory>
        ensures pushed { OnOk result (self.new ≡ self.old ++ name.now ∷ []) }
        ensures unchanged { OnErr result (self.new ≡ self.old) }
    {
        self.push(name.bytes())
    }

    /// Writes names behind the others, with a comma between two.
    pub fn push_names(&mut self, names: &[Name]) -> Result<(), NoMemory>
        ensures { OnOk result (self.new ≡ self.old ++ listed names.now) }
    {
        if let [first, others @ ..] = names {
            self.push_name(first)?;
            for name in others {
                self.push(b",")?;
                self.push_name(name)?;
            }
        }
        Ok(())
    }

    /// Writes a number behind the others.
    pub fn push_number(&mut self, number: u64) -> Result<(), NoMemory>
        ensures pushed { OnOk result (self.new ≡ self.old ++ decimal number ∷ []) }
        ensures unchanged { OnErr result (self.new ≡ self.old) }
    {
        self.push(Buffer::new().format(number).as_bytes())
    }

    /// The text of the words, with a blank between two.
    pub fn into_text(mut self) -> Vec<u8>
        ensures { result.items ≡ joined self }
    {
        self.text.pop();
        self.text
    }
}
