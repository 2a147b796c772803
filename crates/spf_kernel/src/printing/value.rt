//! Printing values.

ghost use Rattle.std.specs.Prelude.{◌≡◌, ◌++◌, OnOk};
ghost use Rattle.spf_kernel.specs.printing.Printed.{entry_words, fact_words, prod_words, value_words};

use crate::printing::list::{push_separator, push_sign_at};
use crate::printing::term::push_term;
use crate::printing::tree_names::{Shown, push_name_at};
use crate::tree::{Factor, Prod, Value};
use spf_base::{Name, NoMemory};
use spf_lex::Words;
use spf_term::Term;
use sqlite_items::Items;

/// Writes an entry of the array of this number.
pub fn push_entry(
    words: &mut Words,
    shown: &Shown,
    arrays: &Items<Name>,
    array: u32,
    sub: &Term,
) -> Result<(), NoMemory>
    ensures { OnOk result (words.new ≡ words.old ++ entry_words shown.now.names.now shown.now.vars.now arrays.now array sub.now) }
{
    push_name_at(words, arrays, array)?;
    words.push(b"[")?;
    push_term(words, shown, sub)?;
    words.push(b"]")
}

#[cycle(print_value)]
fn push_factor(words: &mut Words, shown: &Shown, fact: &Factor) -> Result<(), NoMemory>
    ensures { OnOk result (words.new ≡ words.old ++ fact_words shown.now.names.now shown.now.vars.now fact.now) }
{
    match fact {
        Factor::Number(number) => words.push_number(*number),
        Factor::Paren(value) => {
            words.push(b"(")?;
            push_value(words, shown, value)?;
            words.push(b")")
        }
        Factor::Param(number) => push_name_at(words, &shown.names.params, *number),
        Factor::Var(number) => push_name_at(words, shown.vars, *number),
        Factor::Index { array, sub } => {
            push_entry(words, shown, &shown.names.tables, *array, sub)
        }
        Factor::Cell { array, sub } => {
            push_entry(words, shown, &shown.names.arrays, *array, sub)
        }
    }
}

#[cycle(print_value)]
fn push_prod(words: &mut Words, shown: &Shown, prod: &Prod) -> Result<(), NoMemory>
    ensures { OnOk result (words.new ≡ words.old ++ prod_words shown.now.names.now shown.now.vars.now prod.now) }
{
    for (n, fact) in prod.facts.as_slice().iter().enumerate() {
        push_separator(words, b"*", n)?;
        push_factor(words, shown, fact)?;
    }
    Ok(())
}

/// Writes a value. Linear in it.
#[cycle(print_value)]
pub fn push_value(words: &mut Words, shown: &Shown, value: &Value) -> Result<(), NoMemory>
    ensures { OnOk result (words.new ≡ words.old ++ value_words shown.now.names.now shown.now.vars.now value.now) }
{
    for (n, prod) in value.prods.as_slice().iter().enumerate() {
        push_sign_at(words, n, prod.minus)?;
        push_prod(words, shown, prod)?;
    }
    Ok(())
}
