//! The sets and relations that literals mean.

ghost use Rattle.std.specs.Prelude.{◌≡◌, ◌++◌, length, map, OnOk, IfOk};
ghost use Rattle.spf_reltext.specs.Resolved.{conj_of, ins_of, outputs_of, rel_of, set_of};

use crate::names::{RelNames, number};
use crate::raw::RawLiteral;
use crate::rules::{Shape, shape_of_all, variables};
use crate::terms::{Source, push_equal, push_least};
use spf_base::NoMemory;
use spf_rel::{Conj, Rel, Set};
use sqlite_items::Items;
use std::alloc::Global;

/// The conjunction that a literal means. Linear in it on average, but each name is looked for among the variables.
fn conj_of(alloc: Global, names: &RelNames, literal: &RawLiteral) -> Result<Conj, NoMemory>
    ensures { IfOk result (λ conj. conj ≡ conj_of names.now literal.now) }
{
    let variables = variables(alloc, literal)?;
    let source = Source {
        alloc,
        variables: variables.as_slice(),
        names,
    };
    let mut equal = Items::new(alloc);
    let mut least = Items::new(alloc);
    for constraint in literal.constraints.as_slice() {
        push_equal(&source, &mut equal, constraint)?;
        push_least(&source, &mut least, constraint)?;
    }
    Ok(Conj {
        inner: number(literal.inner.len())?,
        equal,
        least,
    })
}

fn conjs_of(
    alloc: Global,
    names: &RelNames,
    literals: &[RawLiteral],
) -> Result<Items<Conj>, NoMemory>
    ensures { IfOk result (λ conjs. conjs ≡ map (conj_of names.now) literals.now) }
{
    let mut conjs = Items::new(alloc);
    for literal in literals {
        conjs.push(conj_of(alloc, names, literal)?)?;
    }
    Ok(conjs)
}

fn arities(shape: Shape) -> (usize, usize)
    ensures ins { result.0 ≡ ins_of shape }
    ensures outs { result.1 ≡ outputs_of shape }
{
    match shape {
        Shape::Points { arity } => (arity, 0),
        Shape::Pairs { ins, outs } => (ins, outs),
    }
}

/// The relation that the literals mean.
pub(crate) fn rel_of(
    alloc: Global,
    names: &RelNames,
    literals: &[RawLiteral],
) -> Result<Rel, NoMemory>
    ensures { IfOk result (λ rel. rel ≡ rel_of names.now literals.now) }
{
    let (ins, outs) = arities(shape_of_all(literals));
    Ok(Rel {
        ins: number(ins)?,
        outs: number(outs)?,
        conjs: conjs_of(alloc, names, literals)?,
    })
}

/// The set that the literals mean.
pub(crate) fn set_of(
    alloc: Global,
    names: &RelNames,
    literals: &[RawLiteral],
) -> Result<Set, NoMemory>
    ensures { IfOk result (λ set. set ≡ set_of names.now literals.now) }
{
    let (arity, _) = arities(shape_of_all(literals));
    Ok(Set {
        arity: number(arity)?,
        conjs: conjs_of(alloc, names, literals)?,
    })
}
