//! A term in place of a variable.

ghost use Rattle.std.specs.Prelude.{◌≡◌, ◌*ℤ◌, ℕ, ℤ, None, [], ◌∷◌, ◌++◌, List, IfOk, OnOk, map};
ghost use Rattle.spf_term.specs.Environment.{Environment};
ghost use Rattle.spf_term.specs.Normal.{AtomIsNormal, IsNormal, normal, normal_atom, normal_mono};
ghost use Rattle.spf_term.specs.NumberRule.{AtomKeepsRule, IsTested, excess};
ghost use Rattle.spf_term.specs.Substitution.{IsReplaced, is_variable, scaled, substituted, substituted_atom};
ghost use Rattle.spf_term.specs.Value.{value};
ghost use Rattle.spf_term.specs.Wide.{HasOpposites, plain, plain_atom, plain_mono};
ghost use Rattle.spf_term.specs.declared.term.Term.{Term, out-Term};

use crate::collect::collected;
use crate::fault::TermFault;
use crate::narrow::tested;
use crate::normals::{normal_form, normal_wide_atom};
use crate::number_rule::excess;
use crate::term::{Atom, Term};
use crate::wide::{WideAtom, WideMono, WideTerm};
use spf_base::NoMemory;
use std::alloc::Global;

fn is_variable(var: u32, atom: &Atom) -> bool
    ensures { result ≡ is_variable var atom.now }
{
    match atom {
        Atom::Var(number) => *number == var,
        _ => false,
    }
}

fn product(a: i64, b: i64) -> i128
    ensures { result ≡ a *ℤ b }
{
    i128::from(a) * i128::from(b)
}

/// Adds the monomials of the term times a factor. For n monomials, nested ones counted, it takes n log n comparisons.
fn push_scaled(
    alloc: Global,
    factor: i64,
    by: &Term,
    monos: &mut Vec<WideMono>,
) -> Result<(), NoMemory>
    requires { excess by.now ≡ None }
    ensures { OnOk result (map plain_mono monos.new.items ≡ map plain_mono monos.old.items ++ map normal_mono (scaled factor (out-Term by.now).monos)) }
{
    for mono in by.monos.as_slice() {
        let atom = normal_wide_atom(alloc, &mono.atom)?;
        monos.push(WideMono {
            coef: product(factor, mono.coef),
            atom,
        })?;
    }
    Ok(())
}

/// The atom, which isn't the variable.
#[cycle(substituted)]
fn substituted_wide_atom(
    alloc: Global,
    atom: &Atom,
    var: u32,
    by: &Term,
) -> Result<WideAtom, NoMemory>
    requires normal { AtomIsNormal atom.now }
    requires keeps { AtomKeepsRule atom.now }
    requires normal_by { IsNormal by.now }
    requires keeps_by { excess by.now ≡ None }
    ensures { IfOk result (λ made. plain_atom made ≡ normal_atom (substituted_atom var by.now atom.now)) }
{
    match atom {
        Atom::Var(number) => Ok(WideAtom::Var(*number)),
        Atom::Param(number) => Ok(WideAtom::Param(*number)),
        Atom::App { fun, arg } => Ok(WideAtom::App {
            fun: *fun,
            arg: substituted_wide(alloc, arg, var, by)?,
        }),
    }
}

/// The normal form of the term with `by` in place of the variable, with wide numbers. For n monomials with those that come
/// in place of the variable, nested ones counted, it takes n log n comparisons of atoms and memory for n.
#[cycle(substituted)]
pub fn substituted_wide(
    alloc: Global,
    term: &Term,
    var: u32,
    by: &Term,
) -> Result<WideTerm, NoMemory>
    requires normal { IsNormal term.now }
    requires keeps { excess term.now ≡ None }
    requires normal_by { IsNormal by.now }
    requires keeps_by { excess by.now ≡ None }
    ensures form { IfOk result (λ made. plain made ≡ normal (substituted var by.now term.now)) }
    ensures opposites { IfOk result (λ made. HasOpposites (plain made)) }
{
    let mut monos = Vec::new(alloc);
    let mut constant = i128::from(term.constant);
    for mono in term.monos.as_slice() {
        if is_variable(var, &mono.atom) {
            push_scaled(alloc, mono.coef, by, &mut monos)?;
            constant += product(mono.coef, by.constant);
        } else {
            let atom = substituted_wide_atom(alloc, &mono.atom, var, by)?;
            monos.push(WideMono {
                coef: i128::from(mono.coef),
                atom,
            })?;
        }
    }
    Ok(WideTerm {
        monos: collected(alloc, monos)?,
        constant,
    })
}

/// The normal form of normal terms' substitution.
fn substituted_form(alloc: Global, term: &Term, var: u32, by: &Term) -> Result<Term, TermFault>
    requires normal { IsNormal term.now }
    requires keeps { excess term.now ≡ None }
    requires normal_by { IsNormal by.now }
    requires keeps_by { excess by.now ≡ None }
    ensures { IsTested (normal (substituted var by.now term.now) ∷ []) (normal (substituted var by.now term.now)) result }
{
    let wide = substituted_wide(alloc, term, var, by)?;
    tested(alloc, &wide)
}

/// The normal form of the term with `by` in place of the variable, in arguments too. The terms, their normal forms and the
/// result must keep the number rule. For n monomials of the result before those of one atom are added, nested ones counted,
/// it takes n log n comparisons of atoms and memory for n: at most 16,384 times 16,384. It recurses as deep as the terms
/// nest, at most 32,768 deep.
pub fn substitute(alloc: Global, term: &Term, var: u32, by: &Term) -> Result<Term, TermFault>
    ensures { IsTested (term.now ∷ by.now ∷ normal term.now ∷ normal by.now ∷ normal (substituted var by.now term.now) ∷ []) (normal (substituted var by.now term.now)) result }
{
    if let Some(count) = excess(term) {
        return Err(TermFault::Wide { count });
    }
    if let Some(count) = excess(by) {
        return Err(TermFault::Wide { count });
    }
    let term = match normal_form(alloc, term) {
        Ok(term) => term,
        Err(fault) => return Err(fault),
    };
    match normal_form(alloc, by) {
        Ok(by) => substituted_form(alloc, &term, var, &by),
        Err(fault) => Err(fault),
    }
}

/// Law: with a term in place of a variable a term has the value that it has where the variable has that term's value.
pub fn substitution_keeps_the_value()
    ensures { (env : Environment) (before after : List ℤ) (var : ℕ) (by term : Term) → IsReplaced var (value env before by) before after → value env before (substituted var by term) ≡ value env after term }
{}
