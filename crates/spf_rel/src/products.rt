//! Operations that join each conjunction of one operand with each of the other.

ghost use Rattle.std.specs.Prelude.{◌≡◌, IfOk};
ghost use Rattle.spf_rel.specs.Meaning.{IsComposition, IsFormedRel, IsFormedSet, IsImage, IsIntersection, IsIntersectionOfSets, IsRestriction};
ghost use Rattle.spf_rel.specs.Operations.{HasRoomRel, HasRoomSet, apply, compose, in_place, intersect, intersect_sets, meeting, restrict_domain};

use crate::join::{Join, Side, Spot, joined_all};
use crate::relation::{Rel, Set};
use spf_base::NoMemory;
use std::alloc::Global;

/// Tuples that keep their places.
fn in_place(ins: u32, outs: u32) -> Side
    ensures { result ≡ in_place ins outs }
{
    Side {
        first: ins,
        first_to: Spot::Outer(0),
        second: outs,
        second_to: Spot::Outer(ins),
    }
}

/// Operands that have all of their tuples in place.
fn meeting(ins: u32, outs: u32, right_ins: u32, right_outs: u32) -> Join
    ensures { result ≡ meeting ins outs right_ins right_outs }
{
    Join {
        ins,
        outs,
        middle: 0,
        left: in_place(ins, outs),
        right: in_place(right_ins, right_outs),
    }
}

/// The relation b after a. For each conjunction of a, and in it for each of b, the result has one: its inner variables are
/// a's, b's and then the middle tuple, and its constraints a's and then b's. Linear in the result.
pub fn compose(alloc: Global, b: &Rel, a: &Rel) -> Result<Rel, NoMemory>
    requires arities { a.now.outs ≡ b.now.ins }
    requires a { IsFormedRel a.now }
    requires b { IsFormedRel b.now }
    requires room { HasRoomRel (compose b.now a.now) }
    ensures form { IfOk result (λ made. made ≡ compose b.now a.now) }
    ensures formed { IfOk result (λ made. IsFormedRel made) }
    ensures meaning { IfOk result (λ made. IsComposition b.now a.now made) }
{
    let composing = Join {
        ins: a.ins,
        outs: b.outs,
        middle: a.outs,
        left: Side {
            first: a.ins,
            first_to: Spot::Outer(0),
            second: a.outs,
            second_to: Spot::Middle,
        },
        right: Side {
            first: b.ins,
            first_to: Spot::Middle,
            second: b.outs,
            second_to: Spot::Outer(a.ins),
        },
    };
    Ok(Rel {
        ins: a.ins,
        outs: b.outs,
        conjs: joined_all(alloc, &composing, &a.conjs, &b.conjs)?,
    })
}

/// The image of s under r. For each conjunction of s, and in it for each of r, the result has one: its inner variables are
/// those of s, of r and then the inputs of r, and its constraints those of s and then of r. Linear in the result.
pub fn apply(alloc: Global, r: &Rel, s: &Set) -> Result<Set, NoMemory>
    requires arities { s.now.arity ≡ r.now.ins }
    requires r { IsFormedRel r.now }
    requires s { IsFormedSet s.now }
    requires room { HasRoomSet (apply r.now s.now) }
    ensures form { IfOk result (λ made. made ≡ apply r.now s.now) }
    ensures formed { IfOk result (λ made. IsFormedSet made) }
    ensures meaning { IfOk result (λ made. IsImage r.now s.now made) }
{
    let applying = Join {
        ins: r.outs,
        outs: 0,
        middle: r.ins,
        left: Side {
            first: s.arity,
            first_to: Spot::Middle,
            second: 0,
            second_to: Spot::Outer(0),
        },
        right: Side {
            first: r.ins,
            first_to: Spot::Middle,
            second: r.outs,
            second_to: Spot::Outer(0),
        },
    };
    Ok(Set {
        arity: r.outs,
        conjs: joined_all(alloc, &applying, &s.conjs, &r.conjs)?,
    })
}

/// The pairs of both. For each conjunction of a, and in it for each of b, the result has one: its inner variables and its
/// constraints are a's and then b's. Linear in the result.
pub fn intersect(alloc: Global, a: &Rel, b: &Rel) -> Result<Rel, NoMemory>
    requires ins { a.now.ins ≡ b.now.ins }
    requires outs { a.now.outs ≡ b.now.outs }
    requires a { IsFormedRel a.now }
    requires b { IsFormedRel b.now }
    requires room { HasRoomRel (intersect a.now b.now) }
    ensures form { IfOk result (λ made. made ≡ intersect a.now b.now) }
    ensures formed { IfOk result (λ made. IsFormedRel made) }
    ensures meaning { IfOk result (λ made. IsIntersection a.now b.now made) }
{
    let meeting = meeting(a.ins, a.outs, b.ins, b.outs);
    Ok(Rel {
        ins: a.ins,
        outs: a.outs,
        conjs: joined_all(alloc, &meeting, &a.conjs, &b.conjs)?,
    })
}

/// The points of both, as `intersect` has them. Linear in the result.
pub fn intersect_sets(alloc: Global, a: &Set, b: &Set) -> Result<Set, NoMemory>
    requires arities { a.now.arity ≡ b.now.arity }
    requires a { IsFormedSet a.now }
    requires b { IsFormedSet b.now }
    requires room { HasRoomSet (intersect_sets a.now b.now) }
    ensures form { IfOk result (λ made. made ≡ intersect_sets a.now b.now) }
    ensures formed { IfOk result (λ made. IsFormedSet made) }
    ensures meaning { IfOk result (λ made. IsIntersectionOfSets a.now b.now made) }
{
    let meeting = meeting(a.arity, 0, b.arity, 0);
    Ok(Set {
        arity: a.arity,
        conjs: joined_all(alloc, &meeting, &a.conjs, &b.conjs)?,
    })
}

/// The pairs of r whose input is in s. For each conjunction of r, and in it for each of s, the result has one: its inner
/// variables and its constraints are those of r and then of s. Linear in the result.
pub fn restrict_domain(alloc: Global, r: &Rel, s: &Set) -> Result<Rel, NoMemory>
    requires arities { s.now.arity ≡ r.now.ins }
    requires r { IsFormedRel r.now }
    requires s { IsFormedSet s.now }
    requires room { HasRoomRel (restrict_domain r.now s.now) }
    ensures form { IfOk result (λ made. made ≡ restrict_domain r.now s.now) }
    ensures formed { IfOk result (λ made. IsFormedRel made) }
    ensures meaning { IfOk result (λ made. IsRestriction r.now s.now made) }
{
    let meeting = meeting(r.ins, r.outs, s.arity, 0);
    Ok(Rel {
        ins: r.ins,
        outs: r.outs,
        conjs: joined_all(alloc, &meeting, &r.conjs, &s.conjs)?,
    })
}
