//! Counting the data sites of a tree.

ghost use Rattle.std.specs.Prelude.{ℕ, ◌≡◌, ◌≤◌};
ghost use Rattle.std.specs.List.{sum_by};
ghost use Rattle.spf_kernel.specs.Sites.{assign_sites, data_sites, fact_sites, guard_sites, item_sites, loop_sites, of_data, part_sites, prod_sites, value_sites};

use crate::tree::{Assign, Factor, Guard, Item, Loop, Part, Prod, Tree, Value};

#[cycle(value_sites)]
fn fact_sites(fact: &Factor) -> u32
    requires { fact_sites of_data fact.now ≤ 256 }
    ensures { result ≡ fact_sites of_data fact.now }
{
    match fact {
        Factor::Paren(inside) => value_sites(inside),
        Factor::Cell { .. } => 1,
        Factor::Number(_) | Factor::Param(_) | Factor::Var(_) | Factor::Index { .. } => 0,
    }
}

#[cycle(value_sites)]
fn prod_sites(prod: &Prod) -> u32
    requires { prod_sites of_data prod.now ≤ 256 }
    ensures { result ≡ prod_sites of_data prod.now }
{
    let mut count = 0;
    for fact in prod.facts.as_slice() {
        count += fact_sites(fact);
    }
    count
}

#[cycle(value_sites)]
fn value_sites(value: &Value) -> u32
    requires { value_sites of_data value.now ≤ 256 }
    ensures { result ≡ value_sites of_data value.now }
{
    let mut count = 0;
    for prod in value.prods.as_slice() {
        count += prod_sites(prod);
    }
    count
}

/// A part of a tree that has data sites.
trait HasSites {
    ghost sites: { Self → ℕ };

    /// How many it has. Linear in it.
    fn count(&self) -> u32
        requires { sites self.now ≤ 256 }
        ensures { result ≡ sites self.now };
}

/// How many the parts have.
fn sum<T: HasSites>(parts: &[T]) -> u32
    requires { sum_by T.sites parts.now ≤ 256 }
    ensures { result ≡ sum_by T.sites parts.now }
{
    let mut sum = 0;
    for part in parts {
        sum += part.count();
    }
    sum
}

impl HasSites for Assign {
    ghost sites = { assign_sites of_data };

    /// The target, and the sites of the value.
    fn count(&self) -> u32 {
        1 + value_sites(&self.value)
    }
}

#[tactic(auto, using(crate::proofs::SiteSums::no_conds))]
fn guard_sites(guard: &Guard) -> u32
    requires { guard_sites of_data guard.now ≤ 256 }
    ensures { result ≡ guard_sites of_data guard.now }
{
    sum(guard.body.as_slice())
}

impl HasSites for Part {
    ghost sites = { part_sites of_data };

    fn count(&self) -> u32 {
        match self {
            Part::Assign(assign) => assign.count(),
            Part::Branch(guard) => guard_sites(guard),
        }
    }
}

impl HasSites for Item {
    ghost sites = { item_sites of_data };

    fn count(&self) -> u32 {
        match self {
            Item::Assign(assign) => assign.count(),
            Item::Branch(guard) => guard_sites(guard),
            Item::Inner { parts, .. } => sum(parts.as_slice()),
        }
    }
}

impl HasSites for Loop {
    ghost sites = { loop_sites of_data };

    fn count(&self) -> u32 {
        sum(self.items.as_slice())
    }
}

/// How many data sites the loops have. Linear in the tree.
pub fn data_sites(tree: &Tree) -> u32
    requires { data_sites tree.now ≤ 256 }
    ensures { result ≡ data_sites tree.now }
{
    sum(tree.loops.as_slice())
}
