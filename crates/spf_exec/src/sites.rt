//! Whether the sites of a body have numbers of 32 bits, which a walk through it asks.
//!
//! A kernel's have (`IsBoundedTree`); those of composed terms may be 64 times as many. Each count is the greatest `u64`, or at
//! least that of the sites: a term's monomials are counted in place of its applications, and each takes memory.

ghost use Rattle.std.specs.Prelude.{◌-◌, ◌≤◌, ◌^◌, All, IsTrue, min};
ghost use Rattle.std.specs.List.{sum_by};
ghost use Rattle.spf_term.specs.Value.{applications};
ghost use Rattle.spf_kernel.specs.BodySites.{assign_sites, cond_sites, fact_sites, guard_sites, item_sites, part_sites, prod_sites, value_sites};
ghost use Rattle.spf_exec.specs.Running.{HasFewSites};

use crate::program::Body;
use spf_kernel::tree::{Assign, Cond, Factor, Guard, Item, Part, Prod, Value};
use spf_term::{Term, monomials};

/// Linear in the term; recurses as deep as it nests.
fn term_sites(term: &Term) -> u64
    ensures { min (applications term.now) (2 ^ 64 - 1) ≤ result }
{
    monomials(term)
}

#[cycle(value_sites)]
fn fact_sites(fact: &Factor) -> u64
    ensures { min (fact_sites fact.now) (2 ^ 64 - 1) ≤ result }
{
    match fact {
        Factor::Paren(inside) => value_sites(inside),
        Factor::Index { sub, .. } | Factor::Cell { sub, .. } => term_sites(sub).saturating_add(1),
        Factor::Number(_) | Factor::Param(_) | Factor::Var(_) => 0,
    }
}

#[cycle(value_sites)]
fn prod_sites(prod: &Prod) -> u64
    ensures { min (prod_sites prod.now) (2 ^ 64 - 1) ≤ result }
{
    let mut count: u64 = 0;
    for fact in prod.facts.as_slice() {
        count = count.saturating_add(fact_sites(fact));
    }
    count
}

#[cycle(value_sites)]
fn value_sites(value: &Value) -> u64
    ensures { min (value_sites value.now) (2 ^ 64 - 1) ≤ result }
{
    let mut count: u64 = 0;
    for prod in value.prods.as_slice() {
        count = count.saturating_add(prod_sites(prod));
    }
    count
}

fn assign_sites(assign: &Assign) -> u64
    ensures { min (assign_sites assign.now) (2 ^ 64 - 1) ≤ result }
{
    term_sites(&assign.sub)
        .saturating_add(1)
        .saturating_add(value_sites(&assign.value))
}

fn cond_sites(cond: &Cond) -> u64
    ensures { min (cond_sites cond.now) (2 ^ 64 - 1) ≤ result }
{
    term_sites(&cond.left).saturating_add(term_sites(&cond.right))
}

fn guard_sites(guard: &Guard) -> u64
    ensures { min (guard_sites guard.now) (2 ^ 64 - 1) ≤ result }
{
    let mut count: u64 = 0;
    for cond in guard.conds.as_slice() {
        count = count.saturating_add(cond_sites(cond));
    }
    for assign in guard.body.as_slice() {
        count = count.saturating_add(assign_sites(assign));
    }
    count
}

fn part_sites(part: &Part) -> u64
    ensures { min (part_sites part.now) (2 ^ 64 - 1) ≤ result }
{
    match part {
        Part::Assign(assign) => assign_sites(assign),
        Part::Branch(guard) => guard_sites(guard),
    }
}

fn parts_sites(parts: &[Part]) -> u64
    ensures { min (sum_by part_sites parts.now) (2 ^ 64 - 1) ≤ result }
{
    let mut count: u64 = 0;
    for part in parts {
        count = count.saturating_add(part_sites(part));
    }
    count
}

fn item_sites(item: &Item) -> u64
    ensures { min (item_sites item.now) (2 ^ 64 - 1) ≤ result }
{
    match item {
        Item::Assign(assign) => assign_sites(assign),
        Item::Branch(guard) => guard_sites(guard),
        Item::Inner {
            low,
            high,
            parts,
            ..
        } => term_sites(low)
            .saturating_add(term_sites(high))
            .saturating_add(2)
            .saturating_add(parts_sites(parts.as_slice())),
    }
}

/// Whether the sites of the items have numbers of 32 bits. Linear in what the items are written with.
fn has_few_sites(items: &[Item]) -> bool
    ensures { IsTrue result → HasFewSites items.now }
{
    let mut count: u64 = 0;
    for item in items {
        count = count.saturating_add(item_sites(item));
    }
    count < u64::from(u32::MAX)
}

/// Whether the sites of each body have numbers of 32 bits. Linear in what the bodies are written with.
pub(crate) fn have_few_sites(bodies: &[Body]) -> bool
    ensures { IsTrue result → All (λ body. HasFewSites body.items) bodies.now }
{
    bodies
        .iter()
        .all(|body| has_few_sites(body.items.as_slice()))
}
