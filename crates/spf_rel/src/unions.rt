//! The conjunctions of one operand, and then those of the other.

ghost use Rattle.std.specs.Prelude.{◌≡◌, ◌++◌, ◌<◌, ◌^◌, All, IfOk, OnOk};
ghost use Rattle.spf_rel.specs.Meaning.{IsFormedRel, IsFormedSet, IsNumbered, IsUnion, IsUnionOfSets};
ghost use Rattle.spf_rel.specs.Operations.{union, union_sets};
ghost use Rattle.spf_rel.specs.Renumbering.{Variables};

use crate::relation::{Conj, Rel, Set};
use crate::renumber::{Blocks, renumbered_terms};
use spf_base::NoMemory;
use spf_term::Term;
use sqlite_items::Items;
use std::alloc::Global;

/// A copy of the terms. Linear in them.
fn copied_terms(alloc: Global, terms: &Items<Term>) -> Result<Items<Term>, NoMemory>
    requires { All (Variables (λ number. number < 2 ^ 32)) terms.now }
    ensures { IfOk result (λ made. made ≡ terms.now) }
{
    let in_place = Blocks {
        first: 0,
        second: 0,
        to_first: 0,
        to_second: 0,
        to_others: 0,
    };
    renumbered_terms(alloc, in_place, terms)
}

/// A copy of the conjunction. Linear in it.
fn copied(alloc: Global, conj: &Conj) -> Result<Conj, NoMemory>
    requires { IsNumbered conj.now }
    ensures { IfOk result (λ made. made ≡ conj.now) }
{
    let equal = copied_terms(alloc, &conj.equal)?;
    let least = copied_terms(alloc, &conj.least)?;
    Ok(Conj {
        inner: conj.inner,
        equal,
        least,
    })
}

/// Adds copies of the conjunctions. Linear in them.
fn push_copies(alloc: Global, conjs: &Items<Conj>, made: &mut Items<Conj>) -> Result<(), NoMemory>
    requires { All IsNumbered conjs.now }
    ensures { OnOk result (made.new ≡ made.old ++ conjs.now) }
{
    for conj in conjs.as_slice() {
        made.push(copied(alloc, conj)?)?;
    }
    Ok(())
}

/// Copies of the conjunctions of one, and then of the other. Linear in them.
fn both(alloc: Global, first: &Items<Conj>, second: &Items<Conj>) -> Result<Items<Conj>, NoMemory>
    requires first { All IsNumbered first.now }
    requires second { All IsNumbered second.now }
    ensures { IfOk result (λ made. made ≡ first.now ++ second.now) }
{
    let mut made = Items::new(alloc);
    push_copies(alloc, first, &mut made)?;
    push_copies(alloc, second, &mut made)?;
    Ok(made)
}

/// The pairs of either: a's conjunctions and then b's. Linear in both.
pub fn union(alloc: Global, a: &Rel, b: &Rel) -> Result<Rel, NoMemory>
    requires ins { a.now.ins ≡ b.now.ins }
    requires outs { a.now.outs ≡ b.now.outs }
    requires a { IsFormedRel a.now }
    requires b { IsFormedRel b.now }
    ensures form { IfOk result (λ made. made ≡ union a.now b.now) }
    ensures formed { IfOk result (λ made. IsFormedRel made) }
    ensures meaning { IfOk result (λ made. IsUnion a.now b.now made) }
{
    Ok(Rel {
        ins: a.ins,
        outs: a.outs,
        conjs: both(alloc, &a.conjs, &b.conjs)?,
    })
}

/// The points of either: a's conjunctions and then b's. Linear in both.
pub fn union_sets(alloc: Global, a: &Set, b: &Set) -> Result<Set, NoMemory>
    requires arities { a.now.arity ≡ b.now.arity }
    requires a { IsFormedSet a.now }
    requires b { IsFormedSet b.now }
    ensures form { IfOk result (λ made. made ≡ union_sets a.now b.now) }
    ensures formed { IfOk result (λ made. IsFormedSet made) }
    ensures meaning { IfOk result (λ made. IsUnionOfSets a.now b.now made) }
{
    Ok(Set {
        arity: a.arity,
        conjs: both(alloc, &a.conjs, &b.conjs)?,
    })
}
