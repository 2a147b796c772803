//! The text of values, and of relations as functions.

ghost use Rattle.std.specs.Prelude.{◌≡◌, ◌++◌, [], codes, OnOk, IfOk};
ghost use Rattle.spf_reltext.specs.Printed.{lead, parts_from, rel_naming, term_text};
ghost use Rattle.spf_calc.specs.Statements.{function_text, value_text};

use crate::value::Value;
use spf_base::NoMemory;
use spf_reltext::{Layout, RelNames, print_rel, print_set, push_term};
use spf_term::Term;
use sqlite_items::Items;
use std::alloc::Global;

/// The text of a value. Linear in it; recurses as deep as its terms nest, at most 16,384 deep.
pub(crate) fn value_text(
    alloc: Global,
    names: &RelNames,
    value: &Value,
) -> Result<Vec<u8>, NoMemory>
    ensures { IfOk result (λ text. text.items ≡ value_text names.now value.now) }
{
    match value {
        Value::Points(set) => print_set(alloc, set, names),
        Value::Pairs(rel) => print_rel(alloc, rel, names),
    }
}

fn push(text: &mut Vec<u8>, part: &[u8]) -> Result<(), NoMemory>
    ensures { OnOk result (text.new.items ≡ text.old.items ++ part.now) }
{
    text.extend_from_slice(part)?;
    Ok(())
}

fn push_between(text: &mut Vec<u8>, n: usize) -> Result<(), NoMemory>
    ensures { OnOk result (text.new.items ≡ text.old.items ++ lead [] (codes ", ") n) }
{
    push(text, if n == 0 { b"" } else { b", " })
}

/// Terms with a comma between two. Linear in them.
fn push_terms(text: &mut Vec<u8>, layout: &Layout, terms: &[Term]) -> Result<(), NoMemory>
    ensures { OnOk result (text.new.items ≡ text.old.items ++ parts_from [] (codes ", ") (term_text (rel_naming layout.now.ins layout.now.outs layout.now.names.now)) 0 terms.now) }
{
    for (n, term) in terms.iter().enumerate() {
        push_between(text, n)?;
        push_term(text, layout, term)?;
    }
    Ok(())
}

/// The outputs as terms in so many inputs, where there are such. Linear in them; recurses as deep as they nest, at most
/// 16,384 deep.
pub(crate) fn function_text(
    alloc: Global,
    names: &RelNames,
    ins: u32,
    found: &Option<Items<Term>>,
) -> Result<Vec<u8>, NoMemory>
    ensures { IfOk result (λ text. text.items ≡ function_text names.now ins found.now) }
{
    let mut text = Vec::new(alloc);
    let Some(terms) = found else {
        push(&mut text, b"none")?;
        return Ok(text);
    };
    let layout = Layout {
        ins,
        outs: 0,
        names,
    };
    push(&mut text, b"[")?;
    push_terms(&mut text, &layout, terms.as_slice())?;
    push(&mut text, b"]")?;
    Ok(text)
}
