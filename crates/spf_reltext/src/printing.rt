//! Printing sets and relations.

ghost use Rattle.std.specs.Prelude.{◌≡◌, [], ◌++◌, codes, OnOk, IfOk};
ghost use Rattle.std.specs.Option.{unwrap_or};
ghost use Rattle.spf_reltext.specs.Printed.{body_text, conj_text, conjs_text, head_text, lead, none_text, parts_from, rel_text, set_text};

use crate::layout::Layout;
use crate::names::RelNames;
use crate::print_parts::{push, push_lead, push_number, push_tuple, push_variables};
use crate::print_sides::push_constraints;
use crate::print_term::TermNames;
use spf_base::NoMemory;
use spf_rel::{Conj, Rel, Set};
use std::alloc::Global;

/// What a set or relation is printed by: how many inputs there are, how many outputs, if it is a relation, and the names.
#[derive(Drop)]
pub struct Frame<'a> {
    pub ins: u32,
    pub outs: Option<u32>,
    pub names: &'a RelNames,
}

fn push_head(text: &mut Vec<u8>, ins: u32, outs: Option<u32>) -> Result<(), NoMemory>
    ensures { OnOk result (text.new.items ≡ text.old.items ++ head_text ins outs) }
{
    push_tuple(text, b"X", ins)?;
    match outs {
        None => Ok(()),
        Some(outs) => {
            push(text, b" -> ")?;
            push_tuple(text, b"Y", outs)
        }
    }
}

fn push_body<N: TermNames>(text: &mut Vec<u8>, names: &N, conj: &Conj) -> Result<(), NoMemory>
    ensures { OnOk result (text.new.items ≡ text.old.items ++ body_text (N.naming names.now) conj.now) }
{
    push_constraints(text, names, b" : ", b" = ", conj.equal.as_slice())?;
    let opening: &[u8] = if conj.equal.len() == 0 {
        b" : "
    } else {
        b" and "
    };
    push_constraints(text, names, opening, b" >= ", conj.least.as_slice())
}

fn push_conj(text: &mut Vec<u8>, frame: &Frame, conj: &Conj) -> Result<(), NoMemory>
    ensures { OnOk result (text.new.items ≡ text.old.items ++ conj_text frame.now.ins frame.now.outs frame.now.names.now conj.now) }
{
    let layout = Layout {
        ins: frame.ins,
        outs: frame.outs.unwrap_or(0),
        names: frame.names,
    };
    push(text, b"{ ")?;
    push_head(text, frame.ins, frame.outs)?;
    push_variables(text, b" with ", b"E", conj.inner)?;
    push_body(text, &layout, conj)?;
    push(text, b" }")
}

fn push_some(text: &mut Vec<u8>, frame: &Frame, conjs: &[Conj]) -> Result<(), NoMemory>
    ensures { OnOk result (text.new.items ≡ text.old.items ++ parts_from [] (codes " | ") (conj_text frame.now.ins frame.now.outs frame.now.names.now) 0 conjs.now) }
{
    for (n, conj) in conjs.iter().enumerate() {
        push_lead(text, b"", b" | ", n)?;
        push_conj(text, frame, conj)?;
    }
    Ok(())
}

fn push_none(text: &mut Vec<u8>, ins: u32, outs: Option<u32>) -> Result<(), NoMemory>
    ensures { OnOk result (text.new.items ≡ text.old.items ++ none_text ins outs) }
{
    push(text, b"none(")?;
    push_number(text, u64::from(ins))?;
    if let Some(outs) = outs {
        push(text, b", ")?;
        push_number(text, u64::from(outs))?;
    }
    push(text, b")")
}

fn push_conjs(text: &mut Vec<u8>, frame: &Frame, conjs: &[Conj]) -> Result<(), NoMemory>
    ensures { OnOk result (text.new.items ≡ text.old.items ++ conjs_text frame.now.ins frame.now.outs frame.now.names.now conjs.now) }
{
    match conjs {
        [] => push_none(text, frame.ins, frame.outs),
        _ => push_some(text, frame, conjs),
    }
}

/// The text of a relation. Linear in it; recurses as deep as its terms nest. A number that has no name prints none.
pub fn print_rel(alloc: Global, rel: &Rel, names: &RelNames) -> Result<Vec<u8>, NoMemory>
    ensures { IfOk result (λ text. text.items ≡ rel_text names.now rel.now) }
{
    let frame = Frame {
        ins: rel.ins,
        outs: Some(rel.outs),
        names,
    };
    let mut text = Vec::new(alloc);
    push_conjs(&mut text, &frame, rel.conjs.as_slice())?;
    Ok(text)
}

/// The text of a set. Linear in it; recurses as deep as its terms nest. A number that has no name prints none.
pub fn print_set(alloc: Global, set: &Set, names: &RelNames) -> Result<Vec<u8>, NoMemory>
    ensures { IfOk result (λ text. text.items ≡ set_text names.now set.now) }
{
    let frame = Frame {
        ins: set.arity,
        outs: None,
        names,
    };
    let mut text = Vec::new(alloc);
    push_conjs(&mut text, &frame, set.conjs.as_slice())?;
    Ok(text)
}
