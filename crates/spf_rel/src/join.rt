//! Conjunctions of two operands joined: the constraints of both, on variables that they share.

ghost use Rattle.std.specs.Prelude.{◌≡◌, ◌+◌, ◌<◌, ◌^◌, ◌++◌, All, IfOk, OnOk, map};
ghost use Rattle.spf_rel.specs.Meaning.{IsFormed};
ghost use Rattle.spf_rel.specs.Renumbering.{Variables};
ghost use Rattle.spf_rel.specs.Join.{HasRoom, IsJoin, blocks_of, both, joined, joined_all, start_of, to_left, to_right};

use crate::relation::Conj;
use crate::renumber::{Blocks, push_renumbered};
use spf_base::NoMemory;
use spf_term::Term;
use sqlite_items::Items;
use std::alloc::Global;

/// Where a tuple of an operand goes.
#[derive(Clone, Copy)]
pub(crate) enum Spot {
    /// Among the inputs and outputs of the result, from this number on.
    Outer(u32),
    /// To the middle tuple, which has the last inner variables of the result.
    Middle,
}

/// The tuples of an operand, and where they go. A set has one tuple, and none behind it.
#[derive(Clone, Copy)]
pub(crate) struct Side {
    pub first: u32,
    pub first_to: Spot,
    pub second: u32,
    pub second_to: Spot,
}

/// How two operands are joined: the inputs and outputs of the result, its middle tuple, and where the operands' go.
#[derive(Clone, Copy)]
pub(crate) struct Join {
    pub ins: u32,
    pub outs: u32,
    pub middle: u32,
    pub left: Side,
    pub right: Side,
}

fn start(spot: Spot, middle: u32) -> u32
    ensures { result ≡ start_of spot middle }
{
    match spot {
        Spot::Outer(start) => start,
        Spot::Middle => middle,
    }
}

fn blocks(side: &Side, inner: u32, middle: u32) -> Blocks
    ensures { result ≡ blocks_of side.now inner middle }
{
    Blocks {
        first: side.first,
        second: side.second,
        to_first: start(side.first_to, middle),
        to_second: start(side.second_to, middle),
        to_others: inner,
    }
}

/// Terms of the left and then of the right, with the numbers that their variables have in the result. Linear in them.
fn both(
    alloc: Global,
    join: &Join,
    left: &Conj,
    right: &Conj,
    lefts: &[Term],
    rights: &[Term],
) -> Result<Items<Term>, NoMemory>
    requires room { HasRoom join.now left.now right.now }
    requires lefts { All (Variables (λ number. to_left join.now left.now right.now number < 2 ^ 32)) lefts.now }
    requires rights { All (Variables (λ number. to_right join.now left.now right.now number < 2 ^ 32)) rights.now }
    ensures { IfOk result (λ made. made ≡ both join.now left.now right.now lefts.now rights.now) }
{
    let outer = join.ins + join.outs;
    let right_inner = outer + left.inner;
    let middle = right_inner + right.inner;
    let mut made = Items::new(alloc);
    push_renumbered(alloc, blocks(&join.left, outer, middle), lefts, &mut made)?;
    push_renumbered(
        alloc,
        blocks(&join.right, right_inner, middle),
        rights,
        &mut made,
    )?;
    Ok(made)
}

/// Both conjunctions as one: inner variables and constraints of the left, and then of the right. Linear in them.
fn joined(alloc: Global, join: &Join, left: &Conj, right: &Conj) -> Result<Conj, NoMemory>
    requires join { IsJoin join.now }
    requires left { IsFormed (join.now.left.first + join.now.left.second) left.now }
    requires right { IsFormed (join.now.right.first + join.now.right.second) right.now }
    requires room { HasRoom join.now left.now right.now }
    ensures { IfOk result (λ made. made ≡ joined join.now left.now right.now) }
{
    let equal = both(
        alloc,
        join,
        left,
        right,
        left.equal.as_slice(),
        right.equal.as_slice(),
    )?;
    let least = both(
        alloc,
        join,
        left,
        right,
        left.least.as_slice(),
        right.least.as_slice(),
    )?;
    Ok(Conj {
        inner: left.inner + right.inner + join.middle,
        equal,
        least,
    })
}

/// Adds the conjunction joined with each of the others. Linear in what is added.
fn push_joined(
    alloc: Global,
    join: &Join,
    left: &Conj,
    rights: &[Conj],
    made: &mut Items<Conj>,
) -> Result<(), NoMemory>
    requires join { IsJoin join.now }
    requires left { IsFormed (join.now.left.first + join.now.left.second) left.now }
    requires rights { All (IsFormed (join.now.right.first + join.now.right.second)) rights.now }
    requires room { All (HasRoom join.now left.now) rights.now }
    ensures { OnOk result (made.new ≡ made.old ++ map (joined join.now left.now) rights.now) }
{
    for right in rights {
        made.push(joined(alloc, join, left, right)?)?;
    }
    Ok(())
}

/// Each conjunction of the left joined with each of the right. Linear in the result.
pub(crate) fn joined_all(
    alloc: Global,
    join: &Join,
    lefts: &Items<Conj>,
    rights: &Items<Conj>,
) -> Result<Items<Conj>, NoMemory>
    requires join { IsJoin join.now }
    requires lefts { All (IsFormed (join.now.left.first + join.now.left.second)) lefts.now }
    requires rights { All (IsFormed (join.now.right.first + join.now.right.second)) rights.now }
    requires room { All (λ left. All (HasRoom join.now left) rights.now) lefts.now }
    ensures { IfOk result (λ made. made ≡ joined_all join.now lefts.now rights.now) }
{
    let mut made = Items::new(alloc);
    for left in lefts.as_slice() {
        push_joined(alloc, join, left, rights.as_slice(), &mut made)?;
    }
    Ok(made)
}
