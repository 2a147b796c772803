//! Terms that are 0, solved for a variable.

ghost use Rattle.std.specs.Prelude.{◌≡◌, ◌↔◌, ◌<◌, ◌^◌, ◌++◌, ◌*ℤ◌, ℕ, ℤ, pos, List, Some, None, All, IfOk, OnOk, true, length};
ghost use Rattle.spf_term.specs.Bounded.{IsWithin};
ghost use Rattle.spf_term.specs.Environment.{Environment};
ghost use Rattle.spf_term.specs.Normal.{IsNormal};
ghost use Rattle.spf_term.specs.NumberRule.{excess};
ghost use Rattle.spf_term.specs.Solution.{IsPivot, IsReady, Solves, can_solve, is_unit, oriented, solution, solved_for, solved_variable, some_mention};
ghost use Rattle.spf_term.specs.Substitution.{scaled};
ghost use Rattle.spf_term.specs.Value.{value};
ghost use Rattle.spf_term.specs.declared.solutions.Solution.{Solution};
ghost use Rattle.spf_term.specs.declared.term.Mono.{Mono};
ghost use Rattle.spf_term.specs.declared.term.Term.{Term, out-Term};

use crate::copies::copied_atom;
use crate::occurrences::some_mention;
use crate::term::{Atom, Mono, Term};
use spf_base::NoMemory;
use sqlite_items::Items;
use std::alloc::Global;

/// A variable, and the term that it is equal to where another term is 0.
#[derive(Drop)]
pub struct Solution {
    pub var: u32,
    pub by: Term,
}

/// The monomial for whose variable a term is solved.
#[derive(Clone, Copy)]
pub(crate) struct Pivot {
    pub place: usize,
    pub var: u32,
    pub coef: i64,
}

fn is_unit(coef: i64) -> bool
    ensures { result ≡ is_unit coef }
{
    coef == 1 || coef == -1
}

/// Whether the variable occurs in one of the monomials of either.
#[tactic(auto, using(crate::proofs::Mentioned::mention_both))]
fn either_mentions(before: &[Mono], after: &[Mono], var: u32) -> bool
    ensures { result ≡ some_mention var (before.now ++ after.now) }
{
    if some_mention(before, var) {
        return true;
    }
    some_mention(after, var)
}

/// Whether the number is one from `low` to below `high`, the coefficient 1 or -1, and the variable in no other monomial.
fn can_solve(low: u32, high: u32, number: u32, coef: i64, before: &[Mono], after: &[Mono]) -> bool
    ensures { result ≡ can_solve low high number coef (before.now ++ after.now) }
{
    if number < low || number >= high || !is_unit(coef) {
        return false;
    }
    if either_mentions(before, after, number) {
        return false;
    }
    true
}

/// The variable of the monomial, if the whole can be solved for it.
fn solved_variable(low: u32, high: u32, mono: &Mono, before: &[Mono], after: &[Mono]) -> Option<u32>
    ensures { result ≡ solved_variable low high mono.now.coef mono.now.atom (before.now ++ after.now) }
{
    match &mono.atom {
        Atom::Var(var) => {
            if can_solve(low, high, *var, mono.coef, before, after) {
                Some(*var)
            } else {
                None
            }
        }
        Atom::Param(_) | Atom::App { .. } => None,
    }
}

/// The first monomial for whose variable the term can be solved. For n monomials and k variables of these numbers with
/// coefficient 1 or -1 it takes k times n steps.
fn find_pivot(term: &Term, low: u32, high: u32) -> Option<Pivot>
    ensures { IsPivot low high term.now result }
{
    let monos = term.monos.as_slice();
    for (place, mono) in monos.iter().enumerate() {
        let before = &monos[..place];
        let after = &monos[place + 1..];
        if let Some(var) = solved_variable(low, high, mono, before, after) {
            return Some(Pivot {
                place,
                var,
                coef: mono.coef,
            });
        }
    }
    None
}

/// The number times 1 or -1.
fn turned(factor: i64, number: i64) -> i64
    requires unit { is_unit factor ≡ true }
    requires small { IsWithin (2 ^ 62) number }
    ensures { result ≡ factor *ℤ number }
{
    if factor == 1 { number } else { -number }
}

/// Adds the monomials times 1 or -1. Linear in them.
fn push_turned(
    alloc: Global,
    factor: i64,
    monos: &[Mono],
    made: &mut Items<Mono>,
) -> Result<(), NoMemory>
    requires unit { is_unit factor ≡ true }
    requires small { All (λ mono. IsWithin (2 ^ 62) mono.coef) monos.now }
    ensures { OnOk result (made.new ≡ made.old ++ scaled factor monos.now) }
{
    for mono in monos {
        let atom = copied_atom(alloc, &mono.atom)?;
        let coef = turned(factor, mono.coef);
        made.push(Mono { coef, atom })?;
    }
    Ok(())
}

/// The monomials of both times 1 or -1. Linear in them.
fn both_turned(
    alloc: Global,
    factor: i64,
    before: &[Mono],
    after: &[Mono],
) -> Result<Items<Mono>, NoMemory>
    requires unit { is_unit factor ≡ true }
    requires before { All (λ mono. IsWithin (2 ^ 62) mono.coef) before.now }
    requires after { All (λ mono. IsWithin (2 ^ 62) mono.coef) after.now }
    ensures { IfOk result (λ made. made ≡ scaled factor before.now ++ scaled factor after.now) }
{
    let mut made = Items::new(alloc);
    push_turned(alloc, factor, before, &mut made)?;
    push_turned(alloc, factor, after, &mut made)?;
    Ok(made)
}

/// The other monomials and the constant, with the sign that they have on the other side.
fn solved(alloc: Global, term: &Term, pivot: Pivot) -> Result<Solution, NoMemory>
    requires keeps { excess term.now ≡ None }
    requires inside { pivot.place < length (out-Term term.now).monos }
    requires unit { is_unit pivot.coef ≡ true }
    ensures { IfOk result (λ made. made ≡ solved_for term.now pivot) }
{
    let monos = term.monos.as_slice();
    let before = &monos[..pivot.place];
    let after = &monos[pivot.place + 1..];
    let factor = turned(-1, pivot.coef);
    let others = both_turned(alloc, factor, before, after)?;
    let constant = turned(factor, term.constant);
    Ok(Solution {
        var: pivot.var,
        by: Term {
            monos: others,
            constant,
        },
    })
}

/// The first variable from `low` to below `high` that has coefficient 1 or -1 in one monomial and occurs in no other, with
/// the term that it is equal to where this one is 0. For n monomials and k such variables with coefficient 1 or -1 it takes
/// k times n steps, and memory for the term.
pub fn solve(alloc: Global, term: &Term, low: u32, high: u32) -> Result<Option<Solution>, NoMemory>
    requires normal { IsNormal term.now }
    requires keeps { excess term.now ≡ None }
    ensures answer { IfOk result (λ found. found ≡ solution low high term.now) }
    ensures ready { IfOk result (λ found. (made : Solution) → found ≡ Some made → IsReady made) }
{
    match find_pivot(term, low, high) {
        None => Ok(None),
        Some(pivot) => Ok(Some(solved(alloc, term, pivot)?)),
    }
}

/// Law: a term is 0 exactly where the variable has the value of its solution, which doesn't depend on the variable.
pub fn solutions_solve()
    ensures { (low high : ℕ) (term : Term) (found : Solution) → solution low high term ≡ Some found → Solves low high term found }
{}

/// Law: a term that is negated where its first monomial has a negative coefficient is 0 where it was.
pub fn oriented_terms_are_alike()
    ensures { (env : Environment) (variables : List ℤ) (term : Term) → (value env variables (oriented term) ≡ pos 0) ↔ (value env variables term ≡ pos 0) }
{}

/// Law: a normal term stays normal when it is oriented.
pub fn oriented_terms_are_normal()
    ensures { (term : Term) → IsNormal term → IsNormal (oriented term) }
{}
