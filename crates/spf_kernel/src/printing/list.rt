//! Printing lists, and what stands between the parts of lists and sums.

ghost use Rattle.std.specs.Prelude.{ℕ, ◌≡◌, ◌++◌, ◌∷◌, List, [], IsTrue, OnOk, flat_map};
ghost use Rattle.spf_lex.specs.Joined.{has_no_blank};
ghost use Rattle.spf_kernel.specs.printing.Printed.{lead_words, separated, separator, sign_at, sign_word};
ghost use Rattle.spf_kernel.specs.declared.printing.tree_names.TreeNames.{TreeNames};

use crate::printing::tree_names::Shown;
use spf_base::NoMemory;
use spf_lex::Words;

/// A part of a tree that is printed as words.
pub trait Print {
    ghost printed: { TreeNames → List (List ℕ) → Self → List (List ℕ) };

    /// Writes its words. Linear in it and in how many numbers its constants are written as.
    fn push(&self, words: &mut Words, shown: &Shown) -> Result<(), NoMemory>
        ensures { OnOk result (words.new ≡ words.old ++ printed shown.now.names.now shown.now.vars.now self.now) };
}

/// Writes the parts one behind another.
pub fn push_all<T: Print>(words: &mut Words, shown: &Shown, parts: &[T]) -> Result<(), NoMemory>
    ensures { OnOk result (words.new ≡ words.old ++ flat_map (T.printed shown.now.names.now shown.now.vars.now) parts.now) }
{
    for part in parts {
        part.push(words, shown)?;
    }
    Ok(())
}

/// Writes the parts with this word between two.
pub fn push_separated<T: Print>(
    words: &mut Words,
    shown: &Shown,
    between: &[u8],
    parts: &[T],
) -> Result<(), NoMemory>
    requires { IsTrue (has_no_blank between.now) }
    ensures { OnOk result (words.new ≡ words.old ++ separated between.now (T.printed shown.now.names.now shown.now.vars.now) parts.now) }
{
    for (n, part) in parts.iter().enumerate() {
        push_separator(words, between, n)?;
        part.push(words, shown)?;
    }
    Ok(())
}

/// Writes what stands in front of the first part of a sum.
pub fn push_lead(words: &mut Words, minus: bool) -> Result<(), NoMemory>
    ensures { OnOk result (words.new ≡ words.old ++ lead_words minus) }
{
    if minus { words.push(b"-") } else { Ok(()) }
}

/// Writes the sign in front of a further part of a sum.
pub fn push_sign(words: &mut Words, minus: bool) -> Result<(), NoMemory>
    ensures { OnOk result (words.new ≡ words.old ++ sign_word minus ∷ []) }
{
    words.push(if minus { b"-" } else { b"+" })
}

/// Writes what stands in front of part `n` of a list.
pub fn push_separator(words: &mut Words, between: &[u8], n: usize) -> Result<(), NoMemory>
    requires { IsTrue (has_no_blank between.now) }
    ensures { OnOk result (words.new ≡ words.old ++ separator between.now n) }
{
    if n == 0 { Ok(()) } else { words.push(between) }
}

/// Writes the sign in front of part `n` of a sum.
pub fn push_sign_at(words: &mut Words, n: usize, minus: bool) -> Result<(), NoMemory>
    ensures { OnOk result (words.new ≡ words.old ++ sign_at n minus) }
{
    if n == 0 {
        push_lead(words, minus)
    } else {
        push_sign(words, minus)
    }
}
