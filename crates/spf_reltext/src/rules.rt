//! Rules 22 to 24, of all literals of one set or relation.

ghost use Rattle.std.specs.Prelude.{◌≡◌, ◌++◌, None, Some, Err, OnOk, IfOk};
ghost use Rattle.std.specs.List.{list_any};
ghost use Rattle.std.specs.Str.{bytes_eq};
ghost use Rattle.spf_reltext.specs.Rules.{breaks_arities, breaks_limits, breaks_names, differ, has_long_side, is_bracketed, is_large, is_long, is_twice, is_wanted, least_rule, limit, names_break, outs_of, repeats, same_shape, shape_of, shape_of_all, variables};

use crate::fact::{Fact, Role, facts_in, facts_of};
use crate::raw::{RawConstraint, RawIx, RawLiteral};
use spf_base::{Name, NoMemory};
use sqlite_items::Items;
use std::alloc::Global;

/// How many names a tuple may have, and how many may stand behind `with`.
pub const MOST_NAMES: usize = 8;

/// How many constraints a literal may have.
pub const MOST_CONSTRAINTS: usize = 64;

/// How many monomials an index expression may have, nested ones counted.
pub const MOST_MONOMIALS: usize = 64;

/// The greatest number in front of `*`.
pub const LARGEST_FACTOR: u64 = 1_048_576;

/// The greatest number that stands alone.
pub const LARGEST_NUMBER: u64 = 4_194_304;

/// What a literal is of: a set, or a relation.
#[derive(Clone, Copy, Debug)]
pub enum Shape {
    Points { arity: usize },
    Pairs { ins: usize, outs: usize },
}

/// What is to be read.
#[derive(Clone, Copy)]
pub enum Wanted {
    Set,
    Relation,
}

// ---- arities

fn shape_of(literal: &RawLiteral) -> Shape
    ensures { result ≡ shape_of literal.now }
{
    let ins = literal.ins.len();
    match &literal.outs {
        None => Shape::Points { arity: ins },
        Some(outs) => Shape::Pairs {
            ins,
            outs: outs.len(),
        },
    }
}

/// The shape of the first literal.
pub(crate) fn shape_of_all(literals: &[RawLiteral]) -> Shape
    ensures { result ≡ shape_of_all literals.now }
{
    match literals.first() {
        None => Shape::Points { arity: 0 },
        Some(literal) => shape_of(literal),
    }
}

/// Whether both are of sets or both of relations, with the same arities.
pub fn same_shape(one: Shape, other: Shape) -> bool
    ensures { result ≡ same_shape one other }
{
    match (one, other) {
        (Shape::Points { arity: a }, Shape::Points { arity: b }) => a == b,
        (Shape::Pairs { ins: a, outs: b }, Shape::Pairs { ins: c, outs: d }) => a == c && b == d,
        _ => false,
    }
}

fn is_wanted(wanted: Wanted, shape: Shape) -> bool
    ensures { result ≡ is_wanted wanted shape }
{
    match (wanted, shape) {
        (Wanted::Set, Shape::Points { .. }) => true,
        (Wanted::Relation, Shape::Pairs { .. }) => true,
        _ => false,
    }
}

pub(crate) fn differ(shape: Shape, literals: &[RawLiteral]) -> bool
    ensures { result ≡ differ shape literals.now }
{
    literals
        .iter()
        .any(|literal| !same_shape(shape_of(literal), shape))
}

/// Rule 22. Linear in the literals.
fn breaks_arities(wanted: Wanted, literals: &[RawLiteral]) -> bool
    ensures { result ≡ breaks_arities wanted literals.now }
{
    let shape = shape_of_all(literals);
    if !is_wanted(wanted, shape) {
        return true;
    }
    differ(shape, literals)
}

// ---- names

pub(crate) fn is_same(one: &Name, other: &Name) -> bool
    ensures { result ≡ bytes_eq one.now other.now }
{
    one.bytes() == other.bytes()
}

pub(crate) fn contains(names: &[Name], name: &Name) -> bool
    ensures { result ≡ list_any (bytes_eq name.now) names.now }
{
    names.iter().any(|other| is_same(name, other))
}

/// The names behind `->`.
pub(crate) fn outs_of(literal: &RawLiteral) -> &[Name]
    ensures { result.now ≡ outs_of literal.now }
{
    match &literal.outs {
        None => &[],
        Some(outs) => outs.as_slice(),
    }
}

/// Puts copies of more names behind the others.
pub(crate) fn copy_names(
    alloc: Global,
    names: &mut Items<Name>,
    more: &[Name],
) -> Result<(), NoMemory>
    ensures { OnOk result (names.new ≡ names.old ++ more.now) }
{
    for name in more {
        names.push(Name::copy(alloc, name.bytes())?)?;
    }
    Ok(())
}

/// The names of the variables, in the order of their numbers.
pub(crate) fn variables(alloc: Global, literal: &RawLiteral) -> Result<Items<Name>, NoMemory>
    ensures { IfOk result (λ names. names ≡ variables literal.now) }
{
    let mut names = Items::new(alloc);
    copy_names(alloc, &mut names, literal.ins.as_slice())?;
    copy_names(alloc, &mut names, outs_of(literal))?;
    copy_names(alloc, &mut names, literal.inner.as_slice())?;
    Ok(names)
}

fn is_twice(names: &[Name], name: &Name) -> bool
    ensures { result ≡ is_twice names.now name.now }
{
    names.iter().filter(|other| is_same(name, other)).count() > 1
}

/// Whether a name stands twice. Quadratic in the names.
fn repeats(names: &[Name]) -> bool
    ensures { result ≡ repeats names.now }
{
    names.iter().any(|name| is_twice(names, name))
}

fn is_bracketed(variables: &[Name], role: &Role) -> bool
    ensures { result ≡ is_bracketed variables.now role.now }
{
    match role {
        Role::Entry(name) => contains(variables, name),
        Role::Alone | Role::Plain(_) => false,
    }
}

fn any_is_bracketed(variables: &[Name], facts: &[Fact]) -> bool
    ensures { result ≡ list_any (λ fact. is_bracketed variables.now fact.role) facts.now }
{
    facts.iter().any(|fact| is_bracketed(variables, &fact.role))
}

fn names_break(variables: &[Name], facts: &[Fact]) -> bool
    ensures { result ≡ names_break variables.now facts.now }
{
    if repeats(variables) {
        return true;
    }
    any_is_bracketed(variables, facts)
}

/// Rule 23. Takes the literal's monomials times its variables.
fn breaks_names(alloc: Global, literal: &RawLiteral) -> Result<bool, NoMemory>
    ensures { IfOk result (λ broken. broken ≡ breaks_names literal.now) }
{
    let variables = variables(alloc, literal)?;
    let facts = facts_in(alloc, literal.constraints.as_slice())?;
    Ok(names_break(variables.as_slice(), facts.as_slice()))
}

pub(crate) fn any_breaks_names(alloc: Global, literals: &[RawLiteral]) -> Result<bool, NoMemory>
    ensures { IfOk result (λ broken. broken ≡ list_any breaks_names literals.now) }
{
    for literal in literals {
        if breaks_names(alloc, literal)? {
            return Ok(true);
        }
    }
    Ok(false)
}

// ---- limits

fn limit(role: &Role) -> u64
    ensures { result ≡ limit role.now }
{
    match role {
        Role::Alone => LARGEST_NUMBER,
        Role::Plain(_) | Role::Entry(_) => LARGEST_FACTOR,
    }
}

fn is_large(fact: &Fact) -> bool
    ensures { result ≡ is_large fact.now }
{
    fact.number > limit(&fact.role)
}

fn any_is_large(facts: &[Fact]) -> bool
    ensures { result ≡ list_any is_large facts.now }
{
    facts.iter().any(is_large)
}

fn is_long(alloc: Global, ix: &RawIx) -> Result<bool, NoMemory>
    ensures { IfOk result (λ long. long ≡ is_long ix.now) }
{
    let facts = facts_of(alloc, ix)?;
    Ok(facts.len() > MOST_MONOMIALS || any_is_large(facts.as_slice()))
}

fn has_long_side(alloc: Global, constraint: &RawConstraint) -> Result<bool, NoMemory>
    ensures { IfOk result (λ long. long ≡ has_long_side constraint.now) }
{
    if is_long(alloc, &constraint.left)? {
        return Ok(true);
    }
    is_long(alloc, &constraint.right)
}

fn any_has_long_side(alloc: Global, constraints: &[RawConstraint]) -> Result<bool, NoMemory>
    ensures { IfOk result (λ long. long ≡ list_any has_long_side constraints.now) }
{
    for constraint in constraints {
        if has_long_side(alloc, constraint)? {
            return Ok(true);
        }
    }
    Ok(false)
}

/// Rule 24. Linear in the literal.
fn breaks_limits(alloc: Global, literal: &RawLiteral) -> Result<bool, NoMemory>
    ensures { IfOk result (λ broken. broken ≡ breaks_limits literal.now) }
{
    let many = literal.ins.len() > MOST_NAMES
        || outs_of(literal).len() > MOST_NAMES
        || literal.inner.len() > MOST_NAMES
        || literal.constraints.len() > MOST_CONSTRAINTS;
    if many {
        return Ok(true);
    }
    any_has_long_side(alloc, literal.constraints.as_slice())
}

pub(crate) fn any_breaks_limits(alloc: Global, literals: &[RawLiteral]) -> Result<bool, NoMemory>
    ensures { IfOk result (λ broken. broken ≡ list_any breaks_limits literals.now) }
{
    for literal in literals {
        if breaks_limits(alloc, literal)? {
            return Ok(true);
        }
    }
    Ok(false)
}

/// The least rule that the literals break. Each takes its monomials and variables times its variables.
pub(crate) fn least_rule(
    alloc: Global,
    wanted: Wanted,
    literals: &[RawLiteral],
) -> Result<Option<u32>, NoMemory>
    ensures { IfOk result (λ rule. rule ≡ least_rule wanted literals.now) }
{
    if breaks_arities(wanted, literals) {
        return Ok(Some(22));
    }
    if any_breaks_names(alloc, literals)? {
        return Ok(Some(23));
    }
    if any_breaks_limits(alloc, literals)? {
        return Ok(Some(24));
    }
    Ok(None)
}
