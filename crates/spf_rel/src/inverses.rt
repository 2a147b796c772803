//! Inputs for outputs.

ghost use Rattle.std.specs.Prelude.{◌≡◌, ◌+◌, ◌<◌, ◌^◌, All, IfOk, map};
ghost use Rattle.spf_rel.specs.Meaning.{IsFormed, IsFormedRel, IsInverse};
ghost use Rattle.spf_rel.specs.Operations.{inverse, swap, swapped};

use crate::relation::{Conj, Rel};
use crate::renumber::{Blocks, renumbered_terms};
use spf_base::NoMemory;
use sqlite_items::Items;
use std::alloc::Global;

/// Inputs become outputs, and outputs inputs.
fn swap(ins: u32, outs: u32) -> Blocks
    requires { ins + outs < 2 ^ 32 }
    ensures { result ≡ swap ins outs }
{
    Blocks {
        first: ins,
        second: outs,
        to_first: outs,
        to_second: 0,
        to_others: ins + outs,
    }
}

fn swapped(alloc: Global, ins: u32, outs: u32, conj: &Conj) -> Result<Conj, NoMemory>
    requires { IsFormed (ins + outs) conj.now }
    ensures { IfOk result (λ made. made ≡ swapped ins outs conj.now) }
{
    let equal = renumbered_terms(alloc, swap(ins, outs), &conj.equal)?;
    let least = renumbered_terms(alloc, swap(ins, outs), &conj.least)?;
    Ok(Conj {
        inner: conj.inner,
        equal,
        least,
    })
}

fn all_swapped(
    alloc: Global,
    ins: u32,
    outs: u32,
    conjs: &Items<Conj>,
) -> Result<Items<Conj>, NoMemory>
    requires { All (IsFormed (ins + outs)) conjs.now }
    ensures { IfOk result (λ made. made ≡ map (swapped ins outs) conjs.now) }
{
    let mut made = Items::new(alloc);
    for conj in conjs.as_slice() {
        made.push(swapped(alloc, ins, outs, conj)?)?;
    }
    Ok(made)
}

/// The relation from the outputs of r to its inputs, conjunction by conjunction. Linear in r.
pub fn inverse(alloc: Global, r: &Rel) -> Result<Rel, NoMemory>
    requires { IsFormedRel r.now }
    ensures form { IfOk result (λ made. made ≡ inverse r.now) }
    ensures formed { IfOk result (λ made. IsFormedRel made) }
    ensures meaning { IfOk result (λ made. IsInverse r.now made) }
{
    Ok(Rel {
        ins: r.outs,
        outs: r.ins,
        conjs: all_swapped(alloc, r.ins, r.outs, &r.conjs)?,
    })
}
