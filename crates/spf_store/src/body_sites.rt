//! Counting the sites of parts that are gone past without a visit.

ghost use Rattle.std.specs.Prelude.{◌≡◌, ◌<◌, ◌^◌};
ghost use Rattle.std.specs.List.{sum_by};
ghost use Rattle.spf_kernel.specs.BodySites.{assign_sites, cond_sites, fact_sites, guard_sites, part_sites, prod_sites, value_sites};

use spf_kernel::tree::{Assign, Cond, Factor, Guard, Part, Prod, Value};
use spf_term::applications;

#[cycle(value_sites)]
fn fact_sites(fact: &Factor) -> u32
    requires { fact_sites fact.now < 2 ^ 32 }
    ensures { result ≡ fact_sites fact.now }
{
    match fact {
        Factor::Paren(inside) => value_sites(inside),
        Factor::Index { sub, .. } | Factor::Cell { sub, .. } => 1 + applications(sub),
        Factor::Number(_) | Factor::Param(_) | Factor::Var(_) => 0,
    }
}

#[cycle(value_sites)]
fn prod_sites(prod: &Prod) -> u32
    requires { prod_sites prod.now < 2 ^ 32 }
    ensures { result ≡ prod_sites prod.now }
{
    let mut count = 0;
    for fact in prod.facts.as_slice() {
        count += fact_sites(fact);
    }
    count
}

/// The sites of a value. Linear in it.
#[cycle(value_sites)]
fn value_sites(value: &Value) -> u32
    requires { value_sites value.now < 2 ^ 32 }
    ensures { result ≡ value_sites value.now }
{
    let mut count = 0;
    for prod in value.prods.as_slice() {
        count += prod_sites(prod);
    }
    count
}

/// The sites of an assignment: the target, what is nested in its subscript, and those of the value. Linear in it.
pub fn assign_sites(assign: &Assign) -> u32
    requires { assign_sites assign.now < 2 ^ 32 }
    ensures { result ≡ assign_sites assign.now }
{
    1 + applications(&assign.sub) + value_sites(&assign.value)
}

fn cond_sites(cond: &Cond) -> u32
    requires { cond_sites cond.now < 2 ^ 32 }
    ensures { result ≡ cond_sites cond.now }
{
    applications(&cond.left) + applications(&cond.right)
}

/// The sites of a guard. Linear in it.
pub(crate) fn guard_sites(guard: &Guard) -> u32
    requires { guard_sites guard.now < 2 ^ 32 }
    ensures { result ≡ guard_sites guard.now }
{
    let mut count = 0;
    for cond in guard.conds.as_slice() {
        count += cond_sites(cond);
    }
    for assign in guard.body.as_slice() {
        count += assign_sites(assign);
    }
    count
}

fn part_sites(part: &Part) -> u32
    requires { part_sites part.now < 2 ^ 32 }
    ensures { result ≡ part_sites part.now }
{
    match part {
        Part::Assign(assign) => assign_sites(assign),
        Part::Branch(guard) => guard_sites(guard),
    }
}

/// The sites of the parts of a `for`. Linear in them.
pub(crate) fn parts_sites(parts: &[Part]) -> u32
    requires { sum_by part_sites parts.now < 2 ^ 32 }
    ensures { result ≡ sum_by part_sites parts.now }
{
    let mut count = 0;
    for part in parts {
        count += part_sites(part);
    }
    count
}
