//! Printing assignments, conditions and loops.

ghost use Rattle.std.specs.Prelude.{◌≡◌, ◌++◌, ◌∷◌, [], OnOk, IfOk};
ghost use Rattle.spf_kernel.specs.printing.Printed.{assign_words, compare_word, cond_words, guard_words, item_words, loop_words, part_words, range_words};

use crate::printing::list::{Print, push_all, push_separated};
use crate::printing::term::push_term;
use crate::printing::tree_names::{Shown, copy_name, copy_names};
use crate::printing::value::{push_entry, push_value};
use crate::signs::push_becomes;
use crate::tree::{Assign, Compare, Cond, Guard, Item, Loop, Part};
use spf_base::{Name, NoMemory};
use spf_lex::Words;
use spf_term::Term;
use sqlite_items::Items;

fn push_compare(words: &mut Words, sign: Compare) -> Result<(), NoMemory>
    ensures { OnOk result (words.new ≡ words.old ++ compare_word sign ∷ []) }
{
    match sign {
        Compare::Equal => words.push(b"=="),
        Compare::Unequal => words.push(b"!="),
        Compare::Less => words.push(b"<"),
        Compare::AtMost => words.push(b"<="),
        Compare::Greater => words.push(b">"),
        Compare::AtLeast => words.push(b">="),
    }
}

impl Print for Assign {
    ghost printed = { assign_words };

    fn push(&self, words: &mut Words, shown: &Shown) -> Result<(), NoMemory> {
        push_entry(words, shown, &shown.names.arrays, self.array, &self.sub)?;
        push_becomes(words, self.sign)?;
        push_value(words, shown, &self.value)?;
        words.push(b";")
    }
}

impl Print for Cond {
    ghost printed = { cond_words };

    fn push(&self, words: &mut Words, shown: &Shown) -> Result<(), NoMemory> {
        push_term(words, shown, &self.left)?;
        push_compare(words, self.sign)?;
        push_term(words, shown, &self.right)
    }
}

fn push_guard(words: &mut Words, shown: &Shown, guard: &Guard) -> Result<(), NoMemory>
    ensures { OnOk result (words.new ≡ words.old ++ guard_words shown.now.names.now shown.now.vars.now guard.now) }
{
    words.push(b"if")?;
    push_separated(words, shown, b"and", guard.conds.as_slice())?;
    words.push(b"{")?;
    push_all(words, shown, guard.body.as_slice())?;
    words.push(b"}")
}

impl Print for Part {
    ghost printed = { part_words };

    fn push(&self, words: &mut Words, shown: &Shown) -> Result<(), NoMemory> {
        match self {
            Part::Assign(assign) => assign.push(words, shown),
            Part::Branch(guard) => push_guard(words, shown, guard),
        }
    }
}

/// Writes a variable and its bounds.
fn push_range(
    words: &mut Words,
    shown: &Shown,
    var: &Name,
    low: &Term,
    high: &Term,
) -> Result<(), NoMemory>
    ensures { OnOk result (words.new ≡ words.old ++ range_words shown.now.names.now shown.now.vars.now var.now low.now high.now) }
{
    words.push_name(var)?;
    words.push(b"in")?;
    push_term(words, shown, low)?;
    words.push(b"..")?;
    push_term(words, shown, high)
}

/// These variables and one more.
fn with_variable(shown: &Shown, var: &Name) -> Result<Items<Name>, NoMemory>
    ensures { IfOk result (λ all. all ≡ shown.now.vars.now ++ var.now ∷ []) }
{
    let mut all = Items::new(shown.alloc);
    copy_names(shown.alloc, &mut all, shown.vars.as_slice())?;
    copy_name(shown.alloc, &mut all, var)?;
    Ok(all)
}

impl Print for Item {
    ghost printed = { item_words };

    fn push(&self, words: &mut Words, shown: &Shown) -> Result<(), NoMemory> {
        match self {
            Item::Assign(assign) => assign.push(words, shown),
            Item::Branch(guard) => push_guard(words, shown, guard),
            Item::Inner {
                var,
                low,
                high,
                parts,
            } => {
                let vars = with_variable(shown, var)?;
                let inner = Shown {
                    alloc: shown.alloc,
                    names: shown.names,
                    vars: &vars,
                };
                words.push(b"for")?;
                push_range(words, shown, var, low, high)?;
                words.push(b"{")?;
                push_all(words, &inner, parts.as_slice())?;
                words.push(b"}")
            }
        }
    }
}

impl Print for Loop {
    ghost printed = { λ names vars. loop_words names };

    fn push(&self, words: &mut Words, shown: &Shown) -> Result<(), NoMemory> {
        let Shown { alloc, names, .. } = *shown;
        let none = Items::new(alloc);
        let outside = Shown {
            alloc,
            names,
            vars: &none,
        };
        let vars = with_variable(&outside, &self.var)?;
        let inside = Shown {
            alloc,
            names,
            vars: &vars,
        };
        words.push(b"loop")?;
        words.push_name(&self.name)?;
        words.push(b"(")?;
        push_range(words, &outside, &self.var, &self.low, &self.high)?;
        words.push(b")")?;
        words.push(b"{")?;
        push_all(words, &inside, self.items.as_slice())?;
        words.push(b"}")
    }
}
