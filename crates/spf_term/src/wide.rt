//! Terms whose numbers have 128 bits, as they are while a normal form is made: numbers that pass 64 bits may cancel again.

ghost use Rattle.std.specs.Prelude.{◌≡◌};
ghost use Rattle.std.specs.Ordering.{int_cmp, ordering_then};
ghost use Rattle.spf_term.specs.Order.{atom_cmp, term_cmp};
ghost use Rattle.spf_term.specs.Wide.{plain, plain_atom};

use sqlite_items::Items;
use std::cmp::Ordering;

/// An `Atom` with a wide argument.
#[cycle(wide)]
#[derive(Drop)]
pub enum WideAtom {
    Var(u32),
    Param(u32),
    App { fun: u32, arg: WideTerm },
}

/// A `Mono` with a wide coefficient.
#[cycle(wide)]
#[derive(Drop)]
pub struct WideMono {
    pub coef: i128,
    pub atom: WideAtom,
}

/// A `Term` with wide numbers.
#[cycle(wide)]
#[derive(Drop)]
pub struct WideTerm {
    pub monos: Items<WideMono>,
    pub constant: i128,
}

/// As `compare_atoms` of the order of terms.
#[cycle(compare_wide)]
pub(crate) fn compare_wide_atoms(a: &WideAtom, b: &WideAtom) -> Ordering
    ensures { result ≡ atom_cmp (plain_atom a.now) (plain_atom b.now) }
{
    match (a, b) {
        (WideAtom::Var(number), WideAtom::Var(other)) => number.cmp(other),
        (WideAtom::Var(_), _) => Ordering::Less,
        (_, WideAtom::Var(_)) => Ordering::Greater,
        (WideAtom::Param(number), WideAtom::Param(other)) => number.cmp(other),
        (WideAtom::Param(_), _) => Ordering::Less,
        (_, WideAtom::Param(_)) => Ordering::Greater,
        (
            WideAtom::App { fun, arg },
            WideAtom::App {
                fun: other_fun,
                arg: other,
            },
        ) => {
            match fun.cmp(other_fun) {
                Ordering::Equal => compare_wide(arg, other),
                order => order,
            }
        }
    }
}

#[cycle(compare_wide)]
fn compare_wide_monos(a: &WideMono, b: &WideMono) -> Ordering
    ensures { result ≡ ordering_then (atom_cmp (plain_atom a.now.atom) (plain_atom b.now.atom)) (int_cmp a.now.coef b.now.coef) }
{
    match compare_wide_atoms(&a.atom, &b.atom) {
        Ordering::Equal => a.coef.cmp(&b.coef),
        order => order,
    }
}

/// As `compare`. Linear in the shorter term; recurses as deep as it nests.
#[cycle(compare_wide)]
fn compare_wide(a: &WideTerm, b: &WideTerm) -> Ordering
    ensures { result ≡ term_cmp (plain a.now) (plain b.now) }
{
    let others = b.monos.as_slice();
    for (index, mono) in a.monos.as_slice().iter().enumerate() {
        let Some(other) = others.get(index) else {
            return Ordering::Greater;
        };
        match compare_wide_monos(mono, other) {
            Ordering::Equal => {}
            order => return order,
        }
    }
    if a.monos.len() < others.len() {
        Ordering::Less
    } else {
        a.constant.cmp(&b.constant)
    }
}
