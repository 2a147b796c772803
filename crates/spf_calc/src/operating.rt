//! Operations on values.

ghost use Rattle.std.specs.Prelude.{◌≡◌, nat_le, true, length, Some, IfOk, IfSome, IsSome};
ghost use Rattle.std.specs.List.{list_all};
ghost use Rattle.spf_rel.specs.declared.relation.Conj.{Conj as One};
ghost use Rattle.spf_calc.specs.Room.{count_of, has_room};
ghost use Rattle.spf_calc.specs.Rules.{empty_shape, turned};
ghost use Rattle.spf_calc.specs.Values.{IsFormedValue, MadeBecomes, combined, conjs_of, empty, fits, inverted, result_shape, shape_of};

use crate::raw::Operation;
use crate::value::{MOST_CONJUNCTIONS, Value, simplified};
use spf_base::NoMemory;
use spf_rel::{
    Conj, Rel, Set, apply, compose, intersect, intersect_sets, inverse, restrict_domain, union,
    union_sets,
};
use spf_reltext::{Shape, same_shape};
use sqlite_items::Items;
use std::alloc::Global;

/// How many inputs, outputs and inner variables an operand has at most: those of a result then have numbers of 32 bits. A
/// simplified conjunction has no more than its monomials, so this bound is never reached.
pub const ROOM: u32 = 1 << 28;

pub(crate) fn fits(operation: Operation, first: Shape, second: Shape) -> bool
    ensures { result ≡ fits operation first second }
{
    match (operation, first, second) {
        (Operation::Compose, Shape::Pairs { ins, .. }, Shape::Pairs { outs, .. }) => outs == ins,
        (Operation::Apply, Shape::Pairs { ins, .. }, Shape::Points { arity }) => arity == ins,
        (Operation::Union | Operation::Intersect, _, _) => same_shape(first, second),
        (Operation::Restrict, Shape::Pairs { ins, .. }, Shape::Points { arity }) => arity == ins,
        _ => false,
    }
}

fn has_room(value: &Value) -> bool
    ensures { result ≡ has_room value.now }
{
    let (ins, outs) = match value {
        Value::Points(set) => (set.arity, 0),
        Value::Pairs(rel) => (rel.ins, rel.outs),
    };
    ins <= ROOM && outs <= ROOM && have_room(value.conjs())
}

fn have_room(conjs: &[Conj]) -> bool
    ensures { result ≡ list_all (λ (conj : One). nat_le conj.inner ROOM) conjs.now }
{
    conjs.iter().all(|conj| conj.inner <= ROOM)
}

/// How many conjunctions the operation makes, up to the greatest number of the machine.
fn count(operation: Operation, first: usize, second: usize) -> usize
    ensures { nat_le result MOST_CONJUNCTIONS ≡ nat_le (count_of operation first second) MOST_CONJUNCTIONS }
{
    match operation {
        Operation::Union => first.saturating_add(second),
        _ => first.saturating_mul(second),
    }
}

/// Whether the operation makes few enough conjunctions to simplify.
fn has_few(operation: Operation, first: &Value, second: &Value) -> bool
    ensures { result ≡ nat_le (count_of operation (length (conjs_of first.now)) (length (conjs_of second.now))) MOST_CONJUNCTIONS }
{
    count(operation, first.conjs().len(), second.conjs().len()) <= MOST_CONJUNCTIONS
}

/// What an operation makes of operands that fit and give few enough conjunctions. Linear in the result.
#[tactic(auto, using(crate::proofs::Rooms::compose_room, crate::proofs::Rooms::apply_room, crate::proofs::Rooms::intersect_room, crate::proofs::Rooms::intersect_sets_room, crate::proofs::Rooms::restrict_room))]
fn combined(
    alloc: Global,
    operation: Operation,
    first: &Value,
    second: &Value,
) -> Result<Value, NoMemory>
    requires fit { fits operation (shape_of first.now) (shape_of second.now) ≡ true }
    requires first { IsFormedValue first.now }
    requires second { IsFormedValue second.now }
    requires few { nat_le (count_of operation (length (conjs_of first.now)) (length (conjs_of second.now))) MOST_CONJUNCTIONS ≡ true }
    requires first_room { has_room first.now ≡ true }
    requires second_room { has_room second.now ≡ true }
    ensures made { IfOk result (λ made. combined operation first.now second.now ≡ Some made) }
    ensures formed { IfOk result IsFormedValue }
{
    match (operation, first, second) {
        (Operation::Compose, Value::Pairs(b), Value::Pairs(a)) => {
            Ok(Value::Pairs(compose(alloc, b, a)?))
        }
        (Operation::Apply, Value::Pairs(r), Value::Points(s)) => {
            Ok(Value::Points(apply(alloc, r, s)?))
        }
        (Operation::Union, Value::Points(a), Value::Points(b)) => {
            Ok(Value::Points(union_sets(alloc, a, b)?))
        }
        (Operation::Union, Value::Pairs(a), Value::Pairs(b)) => {
            Ok(Value::Pairs(union(alloc, a, b)?))
        }
        (Operation::Intersect, Value::Points(a), Value::Points(b)) => {
            Ok(Value::Points(intersect_sets(alloc, a, b)?))
        }
        (Operation::Intersect, Value::Pairs(a), Value::Pairs(b)) => {
            Ok(Value::Pairs(intersect(alloc, a, b)?))
        }
        (Operation::Restrict, Value::Pairs(r), Value::Points(s)) => {
            Ok(Value::Pairs(restrict_domain(alloc, r, s)?))
        }
        _ => unreachable!(),
    }
}

/// The operation's result simplified, or `None` where it is too wide. One with too many conjunctions isn't made.
#[tactic(auto, using(crate::proofs::Operands::too_many, crate::proofs::Operands::becomes, crate::proofs::Operands::result_shape_is))]
pub(crate) fn operated(
    alloc: Global,
    operation: Operation,
    first: &Value,
    second: &Value,
) -> Result<Option<Value>, NoMemory>
    requires fit { fits operation (shape_of first.now) (shape_of second.now) ≡ true }
    requires first { IsFormedValue first.now }
    requires second { IsFormedValue second.now }
    ensures becomes { IfOk result (λ outcome. MadeBecomes (combined operation first.now second.now) outcome) }
    ensures shape { IfOk result (λ outcome. IfSome outcome (λ made. shape_of made ≡ result_shape operation (shape_of first.now) (shape_of second.now))) }
    ensures formed { IfOk result (λ outcome. IfSome outcome IsFormedValue) }
{
    if !has_few(operation, first, second) {
        return Ok(None);
    }
    if !has_room(first) || !has_room(second) {
        return Err(NoMemory);
    }
    let made = combined(alloc, operation, first, second)?;
    simplified(alloc, &made)
}

/// The inverse of a relation simplified, or `None` where it is too wide.
pub(crate) fn inverted(alloc: Global, value: &Value) -> Result<Option<Value>, NoMemory>
    requires pairs { IsSome (inverted value.now) }
    requires formed { IsFormedValue value.now }
    ensures becomes { IfOk result (λ outcome. MadeBecomes (inverted value.now) outcome) }
    ensures shape { IfOk result (λ outcome. IfSome outcome (λ made. Some (shape_of made) ≡ turned (Some (shape_of value.now)))) }
    ensures formed { IfOk result (λ outcome. IfSome outcome IsFormedValue) }
{
    match value {
        Value::Points(_) => unreachable!(),
        Value::Pairs(rel) => simplified(alloc, &Value::Pairs(inverse(alloc, rel)?)),
    }
}

/// An arity as a number of 32 bits. There is none for a greater one, which rule 24 has refused before: that is told as running
/// out of memory.
fn arity(number: u64) -> Result<u32, NoMemory>
    ensures { IfOk result (λ arity. arity ≡ number) }
{
    match u32::try_from(number) {
        Ok(arity) => Ok(arity),
        Err(_) => Err(NoMemory),
    }
}

/// The empty set or relation.
pub(crate) fn empty(alloc: Global, ins: u64, outs: Option<u64>) -> Result<Value, NoMemory>
    ensures value { IfOk result (λ value. value ≡ empty ins outs) }
    ensures shape { IfOk result (λ value. shape_of value ≡ empty_shape ins outs) }
    ensures formed { IfOk result IsFormedValue }
{
    match outs {
        None => Ok(Value::Points(Set {
            arity: arity(ins)?,
            conjs: Items::new(alloc),
        })),
        Some(outs) => Ok(Value::Pairs(Rel {
            ins: arity(ins)?,
            outs: arity(outs)?,
            conjs: Items::new(alloc),
        })),
    }
}
