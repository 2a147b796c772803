//! Monomials in the order of their atoms, those of one atom added.

ghost use Rattle.std.specs.Prelude.{◌≡◌, ◌<◌, ◌^◌, [], ◌∷◌, ◌++◌, All, IfOk, OnOk, map, false};
ghost use Rattle.std.specs.Ordering.{is_lt};
ghost use Rattle.spf_term.specs.Normal.{AllAtoms, AtomIsNormal, ListIsNormal, added, all_added, kept};
ghost use Rattle.spf_term.specs.Order.{atom_cmp};
ghost use Rattle.spf_term.specs.Wide.{load, plain_atom, plain_mono};
ghost use Rattle.spf_term.specs.declared.term.Atom.{Atom};

use crate::wide::{WideMono, compare_wide_atoms};
use spf_base::NoMemory;
use sqlite_items::Items;
use std::alloc::Global;
use std::cmp::Ordering;

/// Adds the monomial at the end, unless its coefficient is 0.
fn push_kept(made: &mut Vec<WideMono>, mono: WideMono) -> Result<(), NoMemory>
    ensures { OnOk result (map plain_mono made.new.items ≡ map plain_mono made.old.items ++ kept mono.coef (plain_atom mono.atom) []) }
{
    if mono.coef != 0 {
        made.push(mono)?;
    }
    Ok(())
}

/// Adds the monomial, whose atom is not before the last one.
fn add_last(made: &mut Vec<WideMono>, mono: WideMono) -> Result<(), NoMemory>
    requires normal { ListIsNormal (map plain_mono made.old.items) }
    requires last { AllAtoms (λ other. is_lt (atom_cmp (plain_atom mono.atom) other) ≡ false) (map plain_mono made.old.items) }
    requires fits { (atom : Atom) → load atom (map plain_mono (made.old.items ++ mono ∷ [])) < 2 ^ 127 }
    ensures { OnOk result (map plain_mono made.new.items ≡ added mono.coef (plain_atom mono.atom) (map plain_mono made.old.items)) }
{
    let Some(last) = made.pop() else {
        return push_kept(made, mono);
    };
    match compare_wide_atoms(&mono.atom, &last.atom) {
        Ordering::Equal => {
            let sum = WideMono {
                coef: mono.coef + last.coef,
                atom: last.atom,
            };
            push_kept(made, sum)
        }
        _ => {
            made.push(last)?;
            push_kept(made, mono)
        }
    }
}

/// The monomials in the order of their atoms, those of one atom added, without those that are 0. For n monomials it takes
/// n log n comparisons of atoms, and memory for n.
pub(crate) fn collected(
    alloc: Global,
    mut monos: Vec<WideMono>,
) -> Result<Items<WideMono>, NoMemory>
    requires normal { All (λ mono. AtomIsNormal (plain_atom mono.atom)) monos.items }
    requires fits { (atom : Atom) → load atom (map plain_mono monos.items) < 2 ^ 127 }
    ensures form { IfOk result (λ made. map plain_mono made ≡ all_added (map plain_mono monos.items)) }
    ensures fits { IfOk result (λ made. (atom : Atom) → load atom (map plain_mono made) < 2 ^ 127) }
{
    // The least atom last, since they are taken from the end.
    monos.sort_by(|a, b| compare_wide_atoms(&b.atom, &a.atom))?;
    let mut made = Vec::new(alloc);
    while let Some(mono) = monos.pop() {
        add_last(&mut made, mono)?;
    }
    Ok(Items::from_vec(made))
}
