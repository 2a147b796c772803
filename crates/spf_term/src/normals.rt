//! Normal terms.

ghost use Rattle.std.specs.Prelude.{◌≡◌, ℤ, None, [], ◌∷◌, List, IfOk};
ghost use Rattle.spf_term.specs.Environment.{Environment};
ghost use Rattle.spf_term.specs.Normal.{IsNormal, normal, normal_atom};
ghost use Rattle.spf_term.specs.NumberRule.{AtomKeepsRule, IsTested, excess};
ghost use Rattle.spf_term.specs.Value.{value};
ghost use Rattle.spf_term.specs.Wide.{HasOpposites, plain, plain_atom};
ghost use Rattle.spf_term.specs.declared.term.Term.{Term};

use crate::collect::collected;
use crate::fault::TermFault;
use crate::narrow::tested;
use crate::number_rule::excess;
use crate::term::{Atom, Term};
use crate::wide::{WideAtom, WideMono, WideTerm};
use spf_base::NoMemory;
use std::alloc::Global;

#[cycle(normal)]
pub(crate) fn normal_wide_atom(alloc: Global, atom: &Atom) -> Result<WideAtom, NoMemory>
    requires { AtomKeepsRule atom.now }
    ensures { IfOk result (λ made. plain_atom made ≡ normal_atom atom.now) }
{
    match atom {
        Atom::Var(number) => Ok(WideAtom::Var(*number)),
        Atom::Param(number) => Ok(WideAtom::Param(*number)),
        Atom::App { fun, arg } => Ok(WideAtom::App {
            fun: *fun,
            arg: normal_wide(alloc, arg)?,
        }),
    }
}

/// The normal form, with wide numbers. For n monomials, nested ones counted, it takes n log n comparisons of atoms.
#[cycle(normal)]
pub fn normal_wide(alloc: Global, term: &Term) -> Result<WideTerm, NoMemory>
    requires { excess term.now ≡ None }
    ensures form { IfOk result (λ made. plain made ≡ normal term.now) }
    ensures opposites { IfOk result (λ made. HasOpposites (plain made)) }
{
    let mut monos = Vec::new(alloc);
    for mono in term.monos.as_slice() {
        let atom = normal_wide_atom(alloc, &mono.atom)?;
        monos.push(WideMono {
            coef: i128::from(mono.coef),
            atom,
        })?;
    }
    Ok(WideTerm {
        monos: collected(alloc, monos)?,
        constant: i128::from(term.constant),
    })
}

/// The normal form of a term that keeps the number rule.
pub(crate) fn normal_form(alloc: Global, term: &Term) -> Result<Term, TermFault>
    requires { excess term.now ≡ None }
    ensures { IsTested (normal term.now ∷ []) (normal term.now) result }
{
    let wide = normal_wide(alloc, term)?;
    tested(alloc, &wide)
}

/// The normal form: its monomials in order, each atom once, no coefficient 0, and normal arguments. Both the term and its
/// normal form must keep the number rule. For n monomials, nested ones counted, it takes n log n comparisons of atoms and
/// memory for n; it recurses as deep as the term nests, at most 16,384 deep.
pub fn normal(alloc: Global, term: &Term) -> Result<Term, TermFault>
    ensures { IsTested (term.now ∷ normal term.now ∷ []) (normal term.now) result }
{
    match excess(term) {
        Some(count) => Err(TermFault::Wide { count }),
        None => normal_form(alloc, term),
    }
}

/// Law: the normal form of a term has its value under every environment.
pub fn normal_form_keeps_the_value()
    ensures { (env : Environment) (variables : List ℤ) (term : Term) → value env variables (normal term) ≡ value env variables term }
{}

/// Law: the normal form of a term has its monomials in order, each atom once, no coefficient 0, and normal arguments.
pub fn normal_form_is_normal()
    ensures { (term : Term) → IsNormal (normal term) }
{}
