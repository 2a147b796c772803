//! The walk through the body of a loop.

ghost use Rattle.std.specs.Prelude.{◌≡◌, ◌+◌, ◌<◌, ◌≤◌, ◌^◌, pos, ◌+ℤ◌, [], ◌∷◌, All, IfOk};
ghost use Rattle.std.specs.Int.{int_gap};
ghost use Rattle.std.specs.List.{sum_by};
ghost use Rattle.spf_term.specs.Bounded.{IsWithin};
ghost use Rattle.spf_term.specs.Value.{IsSmall, applications, value};
ghost use Rattle.spf_term.specs.Walk.{Walks};
ghost use Rattle.spf_kernel.specs.BodySites.{assign_sites, cond_sites, guard_sites, item_sites, part_sites};
ghost use Rattle.spf_store.specs.Small.{AreSmallTurns, IsSmallAssign, IsSmallCond, IsSmallGuard, IsSmallItem, IsSmallPart};
ghost use Rattle.spf_store.specs.Trace.{assign_trace, bound_trace, branch_trace, compares, cond_trace, holds, inner_trace, integers, item_trace, items_trace, outer_of, part_trace, turn_trace, turns_trace};

use crate::body_sites::{guard_sites, parts_sites};
use crate::piece::{Piece, walk_all};
use crate::ranges::extent;
use crate::visitor::Visitor;
use spf_kernel::tree::{Assign, Compare, Cond, Guard, Item, Part};
use spf_term::{Term, Walked};
use std::ops::Range;

impl Piece for Assign {
    ghost sites = { assign_sites };

    ghost trace = { assign_trace };

    ghost small = { IsSmallAssign };

    fn walk<S, V: Visitor<S>>(
        &self,
        visitor: &V,
        state: &mut S,
        variables: &[i64],
        site: u32,
    ) -> Result<u32, V::Stop> {
        visitor.assign(state, variables, self, site)
    }
}

/// Whether the numbers compare so.
fn compares(sign: Compare, left: i64, right: i64) -> bool
    ensures { result ≡ compares sign left right }
{
    match sign {
        Compare::Equal => left == right,
        Compare::Unequal => left != right,
        Compare::Less => left < right,
        Compare::AtMost => left <= right,
        Compare::Greater => left > right,
        Compare::AtLeast => left >= right,
    }
}

/// Whether a condition holds, and the number of the site behind its last.
#[derive(Drop)]
struct Tested {
    holds: bool,
    next: u32,
}

fn walk_cond<S, V: Visitor<S>>(
    visitor: &V,
    state: &mut S,
    variables: &[i64],
    cond: &Cond,
    site: u32,
) -> Result<Tested, V::Stop>
    requires small { IsSmallCond (V.env visitor.now) variables.now cond.now }
    requires numbered { site + cond_sites cond.now < 2 ^ 32 }
    requires may { All (V.may visitor.now state.old) (cond_trace (V.env visitor.now) variables.now site cond.now) }
    ensures walks { Walks (V.accepts visitor.now) (V.refuses visitor.now) state.old (cond_trace (V.env visitor.now) variables.now site cond.now) result state.new }
    ensures holds { IfOk result (λ tested. tested.holds ≡ holds (V.env visitor.now) variables.now cond.now) }
    ensures next { IfOk result (λ tested. tested.next ≡ site + cond_sites cond.now) }
{
    let left = visitor.term(state, variables, &cond.left, site)?;
    let right = visitor.term(state, variables, &cond.right, left.next)?;
    Ok(Tested {
        holds: compares(cond.sign, left.value, right.value),
        next: right.next,
    })
}

/// Takes the visitor through the conditions up to the first that is false, and through the assignments where none is.
fn walk_guard<S, V: Visitor<S>>(
    visitor: &V,
    state: &mut S,
    variables: &[i64],
    guard: &Guard,
    site: u32,
) -> Result<u32, V::Stop>
    requires small { IsSmallGuard (V.env visitor.now) variables.now guard.now }
    requires numbered { site + guard_sites guard.now < 2 ^ 32 }
    requires may { All (V.may visitor.now state.old) (branch_trace (V.env visitor.now) variables.now site guard.now.conds guard.now.body) }
    ensures walks { Walks (V.accepts visitor.now) (V.refuses visitor.now) state.old (branch_trace (V.env visitor.now) variables.now site guard.now.conds guard.now.body) result state.new }
    ensures next { IfOk result (λ next. next ≡ site + guard_sites guard.now) }
{
    let mut next = site;
    for cond in guard.conds.as_slice() {
        let tested = walk_cond(visitor, state, variables, cond, next)?;
        if !tested.holds {
            return Ok(site + guard_sites(guard));
        }
        next = tested.next;
    }
    walk_all(visitor, state, variables, guard.body.as_slice(), next)
}

impl Piece for Part {
    ghost sites = { part_sites };

    ghost trace = { part_trace };

    ghost small = { IsSmallPart };

    fn walk<S, V: Visitor<S>>(
        &self,
        visitor: &V,
        state: &mut S,
        variables: &[i64],
        site: u32,
    ) -> Result<u32, V::Stop> {
        match self {
            Part::Assign(assign) => visitor.assign(state, variables, assign, site),
            Part::Branch(guard) => walk_guard(visitor, state, variables, guard, site),
        }
    }
}

/// Takes the visitor through a turn of a `for`.
fn walk_turn<S, V: Visitor<S>>(
    visitor: &V,
    state: &mut S,
    variables: &[i64],
    parts: &[Part],
    site: u32,
) -> Result<(), V::Stop>
    requires small { All (IsSmallPart (V.env visitor.now) variables.now) parts.now }
    requires numbered { site + sum_by part_sites parts.now < 2 ^ 32 }
    requires may { All (V.may visitor.now state.old) (turn_trace (V.env visitor.now) variables.now site parts.now) }
    ensures { Walks (V.accepts visitor.now) (V.refuses visitor.now) state.old (turn_trace (V.env visitor.now) variables.now site parts.now) result state.new }
{
    visitor.turn(state)?;
    walk_all(visitor, state, variables, parts, site)?;
    Ok(())
}

/// The value of a loop's variable.
fn outer_of(variables: &[i64]) -> i64
    ensures { result ≡ outer_of variables.now }
{
    match variables.first() {
        Some(outer) => *outer,
        None => 0,
    }
}

/// The variables in a turn of a `for`.
fn turn_variables(variables: &[i64], range: &Range<i64>, turn: u32) -> [i64; 2]
    requires low { IsWithin (2 ^ 22) range.now.start }
    requires high { IsWithin (2 ^ 22) range.now.end }
    requires turn { turn < int_gap range.now.start range.now.end }
    ensures { result ≡ outer_of variables.now ∷ (range.now.start +ℤ pos turn) ∷ [] }
{
    [outer_of(variables), range.start + i64::from(turn)]
}

/// Takes the visitor through the turns of a `for`, whose inner variable goes through a range.
fn walk_turns<S, V: Visitor<S>>(
    visitor: &V,
    state: &mut S,
    variables: &[i64],
    range: &Range<i64>,
    parts: &[Part],
    site: u32,
) -> Result<(), V::Stop>
    requires low { IsWithin (2 ^ 22) range.now.start }
    requires high { IsWithin (2 ^ 22) range.now.end }
    requires small { AreSmallTurns (V.env visitor.now) variables.now parts.now }
    requires numbered { site + sum_by part_sites parts.now < 2 ^ 32 }
    requires may { All (V.may visitor.now state.old) (turns_trace (V.env visitor.now) variables.now site parts.now (integers range.now.start range.now.end)) }
    ensures { Walks (V.accepts visitor.now) (V.refuses visitor.now) state.old (turns_trace (V.env visitor.now) variables.now site parts.now (integers range.now.start range.now.end)) result state.new }
{
    for turn in 0..extent(range) {
        let both = turn_variables(variables, range, turn);
        walk_turn(visitor, state, &both, parts, site)?;
    }
    Ok(())
}

/// Takes the visitor through a bound of a `for`, which is a site before the names in it.
fn walk_bound<S, V: Visitor<S>>(
    visitor: &V,
    state: &mut S,
    variables: &[i64],
    bound: &Term,
    site: u32,
) -> Result<Walked, V::Stop>
    requires small { IsSmall (V.env visitor.now) variables.now bound.now }
    requires numbered { site + (1 + applications bound.now) < 2 ^ 32 }
    requires may { All (V.may visitor.now state.old) (bound_trace (V.env visitor.now) variables.now site bound.now) }
    ensures walks { Walks (V.accepts visitor.now) (V.refuses visitor.now) state.old (bound_trace (V.env visitor.now) variables.now site bound.now) result state.new }
    ensures value { IfOk result (λ walked. walked.value ≡ value (V.env visitor.now) variables.now bound.now) }
    ensures next { IfOk result (λ walked. walked.next ≡ site + (1 + applications bound.now)) }
    ensures within { IfOk result (λ walked. IsWithin (2 ^ 22) walked.value) }
{
    let walked = visitor.term(state, variables, bound, site + 1)?;
    visitor.bound(state, site, walked.value)?;
    Ok(walked)
}

/// Takes the visitor through a `for`: its bounds, each evaluated once, and its turns.
fn walk_inner<S, V: Visitor<S>>(
    visitor: &V,
    state: &mut S,
    variables: &[i64],
    low: &Term,
    high: &Term,
    parts: &[Part],
    site: u32,
) -> Result<u32, V::Stop>
    requires low { IsSmall (V.env visitor.now) variables.now low.now }
    requires high { IsSmall (V.env visitor.now) variables.now high.now }
    requires small { AreSmallTurns (V.env visitor.now) variables.now parts.now }
    requires numbered { site + ((1 + applications low.now) + (1 + applications high.now) + sum_by part_sites parts.now) < 2 ^ 32 }
    requires may { All (V.may visitor.now state.old) (inner_trace (V.env visitor.now) variables.now site low.now high.now parts.now) }
    ensures walks { Walks (V.accepts visitor.now) (V.refuses visitor.now) state.old (inner_trace (V.env visitor.now) variables.now site low.now high.now parts.now) result state.new }
    ensures next { IfOk result (λ next. next ≡ site + ((1 + applications low.now) + (1 + applications high.now) + sum_by part_sites parts.now)) }
{
    let first = walk_bound(visitor, state, variables, low, site)?;
    let last = walk_bound(visitor, state, variables, high, first.next)?;
    let range = first.value..last.value;
    walk_turns(visitor, state, variables, &range, parts, last.next)?;
    Ok(last.next + parts_sites(parts))
}

impl Piece for Item {
    ghost sites = { item_sites };

    ghost trace = { item_trace };

    ghost small = { IsSmallItem };

    fn walk<S, V: Visitor<S>>(
        &self,
        visitor: &V,
        state: &mut S,
        variables: &[i64],
        site: u32,
    ) -> Result<u32, V::Stop> {
        match self {
            Item::Assign(assign) => visitor.assign(state, variables, assign, site),
            Item::Branch(guard) => walk_guard(visitor, state, variables, guard, site),
            Item::Inner {
                low,
                high,
                parts,
                ..
            } => walk_inner(visitor, state, variables, low, high, parts.as_slice(), site),
        }
    }
}

/// Takes the visitor through an iteration of a loop with these items: event by event along its trace, up to the first event
/// that it refuses. Linear in the events, and in the parts that are gone past; it takes no memory, and recurses as deep as
/// index expressions and values nest.
pub fn walk_iteration<S, V: Visitor<S>>(
    visitor: &V,
    state: &mut S,
    iteration: &[i64; 1],
    items: &[Item],
) -> Result<(), V::Stop>
    requires small { All (IsSmallItem (V.env visitor.now) iteration.now) items.now }
    requires numbered { 1 + sum_by item_sites items.now < 2 ^ 32 }
    requires may { All (V.may visitor.now state.old) (items_trace (V.env visitor.now) iteration.now 1 items.now) }
    ensures { Walks (V.accepts visitor.now) (V.refuses visitor.now) state.old (items_trace (V.env visitor.now) iteration.now 1 items.now) result state.new }
{
    match walk_all(visitor, state, iteration, items, 1) {
        Ok(_next) => Ok(()),
        Err(stop) => Err(stop),
    }
}
