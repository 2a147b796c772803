//! Printing a tree as a text of the kernel language.

ghost use Rattle.std.specs.Prelude.{◌≡◌, ◌++◌, ◌∷◌, [], codes, OnOk, IfOk};
ghost use Rattle.spf_lex.specs.Joined.{joined};
ghost use Rattle.spf_kernel.specs.printing.Printed.{array_words, decl_words, sized_words, term_words, trend_words, words_of, words_with};

use crate::printing::list::{Print, push_all, push_separated};
use crate::printing::term::push_term;
use crate::printing::tree_names::{Shown, names_of_tree};
use crate::tree::{DataDecl, Decl, Tree, Trend};
use spf_base::{Name, NoMemory};
use spf_lex::Words;
use spf_term::Term;
use sqlite_items::Items;
use std::alloc::Global;

/// Writes an index expression in which no variable stands.
fn push_head(words: &mut Words, shown: &Shown, term: &Term) -> Result<(), NoMemory>
    ensures { OnOk result (words.new ≡ words.old ++ term_words shown.now.names.now [] term.now) }
{
    let none = Items::new(shown.alloc);
    let outside = Shown {
        alloc: shown.alloc,
        names: shown.names,
        vars: &none,
    };
    push_term(words, &outside, term)
}

/// Writes the name of an array and its size.
fn push_sized(words: &mut Words, shown: &Shown, name: &Name, size: &Term) -> Result<(), NoMemory>
    ensures { OnOk result (words.new ≡ words.old ++ sized_words shown.now.names.now name.now size.now) }
{
    words.push_name(name)?;
    words.push(b"[")?;
    push_head(words, shown, size)?;
    words.push(b"]")
}

impl Print for Name {
    ghost printed = { λ names vars name. name ∷ [] };

    fn push(&self, words: &mut Words, _shown: &Shown) -> Result<(), NoMemory> {
        words.push_name(self)
    }
}

impl Print for DataDecl {
    ghost printed = { λ names vars. array_words names };

    fn push(&self, words: &mut Words, shown: &Shown) -> Result<(), NoMemory> {
        push_sized(words, shown, &self.name, &self.size)
    }
}

fn push_trend(words: &mut Words, trend: Trend) -> Result<(), NoMemory>
    ensures { OnOk result (words.new ≡ words.old ++ trend_words trend) }
{
    match trend {
        Trend::Free => Ok(()),
        Trend::Monotone => words.push(b"monotone"),
        Trend::Strict => words.push(b"strict"),
    }
}

/// Writes the bounds of an index array's values, and how they go on.
fn push_bounds(
    words: &mut Words,
    shown: &Shown,
    low: &Term,
    high: &Term,
    trend: Trend,
) -> Result<(), NoMemory>
    ensures { OnOk result (words.new ≡ words.old ++ codes "in" ∷ term_words shown.now.names.now [] low.now ++ codes ".." ∷ term_words shown.now.names.now [] high.now ++ trend_words trend) }
{
    words.push(b"in")?;
    push_head(words, shown, low)?;
    words.push(b"..")?;
    push_head(words, shown, high)?;
    push_trend(words, trend)
}

impl Print for Decl {
    ghost printed = { λ names vars. decl_words names };

    fn push(&self, words: &mut Words, shown: &Shown) -> Result<(), NoMemory> {
        match self {
            Decl::Params { names } => {
                words.push(b"param")?;
                push_separated(words, shown, b",", names.as_slice())?;
            }
            Decl::Index {
                name,
                size,
                low,
                high,
                trend,
            } => {
                words.push(b"index")?;
                push_sized(words, shown, name, size)?;
                push_bounds(words, shown, low, high, *trend)?;
            }
            Decl::Values { arrays } => {
                words.push(b"data")?;
                push_separated(words, shown, b",", arrays.as_slice())?;
            }
        }
        words.push(b";")
    }
}

fn push_tree(words: &mut Words, shown: &Shown, tree: &Tree) -> Result<(), NoMemory>
    ensures { OnOk result (words.new ≡ words.old ++ words_with shown.now.names.now tree.now) }
{
    words.push(b"kernel")?;
    words.push(b"{")?;
    push_all(words, shown, tree.decls.as_slice())?;
    words.push(b"steps")?;
    push_head(words, shown, &tree.steps)?;
    words.push(b";")?;
    push_all(words, shown, tree.loops.as_slice())?;
    words.push(b"}")
}

/// The text of a tree, its words with a blank between two. Linear in the tree and in how many numbers its constants are
/// written as.
pub fn tree_text(alloc: Global, tree: &Tree) -> Result<Vec<u8>, NoMemory>
    ensures { IfOk result (λ text. text.items ≡ joined (words_of tree.now)) }
{
    let names = names_of_tree(alloc, &tree.decls)?;
    let none = Items::new(alloc);
    let shown = Shown {
        alloc,
        names: &names,
        vars: &none,
    };
    let mut words = Words::new(alloc);
    push_tree(&mut words, &shown, tree)?;
    Ok(words.into_text())
}
