//! Relations between inputs and the numbers that terms of them have.

ghost use Rattle.std.specs.Prelude.{◌≡◌, ◌+◌, ◌<◌, ◌≤◌, ◌^◌, ◌∷◌, [], All, IfOk, length};
ghost use Rattle.spf_term.specs.Measure.{size};
ghost use Rattle.spf_rel.specs.Graph.{graph, reversed, shifting};
ghost use Rattle.spf_rel.specs.Renumbering.{Variables};

use crate::definitions::definitions;
use crate::relation::{Conj, Rel};
use crate::renumber::Blocks;
use spf_base::NoMemory;
use spf_term::Term;
use sqlite_items::Items;
use std::alloc::Global;

/// All variables have numbers that are larger by this.
fn shifting(by: u32) -> Blocks
    ensures { result ≡ shifting by }
{
    Blocks {
        first: 0,
        second: 0,
        to_first: 0,
        to_second: 0,
        to_others: by,
    }
}

/// The one conjunction of these equalities, without inner variables.
fn only_equal(alloc: Global, equal: Items<Term>) -> Result<Items<Conj>, NoMemory>
    ensures { IfOk result (λ made. made ≡ record { inner = 0; equal = equal; least = [] } ∷ []) }
{
    let mut conjs = Items::new(alloc);
    conjs.push(Conj {
        inner: 0,
        equal,
        least: Items::new(alloc),
    })?;
    Ok(conjs)
}

/// The relation from inputs to the numbers that terms of them have: an output for each term. Linear in the terms.
pub fn graph(alloc: Global, ins: u32, terms: &[Term]) -> Result<Rel, NoMemory>
    requires few { ins + length terms.now < 2 ^ 32 }
    requires inputs { All (Variables (λ number. number < ins)) terms.now }
    requires small { All (λ term. size term ≤ 2 ^ 62) terms.now }
    ensures { IfOk result (λ made. made ≡ graph ins terms.now) }
{
    let equal = definitions(alloc, ins, &shifting(0), terms)?;
    Ok(Rel {
        ins,
        outs: terms.len() as u32,
        conjs: only_equal(alloc, equal)?,
    })
}

/// The relation from the numbers that terms of so many outputs have to these outputs: an input for each term. Linear in the
/// terms.
pub fn reversed(alloc: Global, outs: u32, terms: &[Term]) -> Result<Rel, NoMemory>
    requires few { outs + length terms.now < 2 ^ 32 }
    requires outputs { All (Variables (λ number. number < outs)) terms.now }
    requires small { All (λ term. size term ≤ 2 ^ 62) terms.now }
    ensures { IfOk result (λ made. made ≡ reversed outs terms.now) }
{
    let ins = terms.len() as u32;
    let equal = definitions(alloc, 0, &shifting(ins), terms)?;
    Ok(Rel {
        ins,
        outs,
        conjs: only_equal(alloc, equal)?,
    })
}
