//! What the rules and the numbering of names read of a literal: one fact for each monomial, in the order of the text.

ghost use Rattle.std.specs.Prelude.{◌≡◌, [], ◌∷◌, ◌++◌, OnOk, IfOk};
ghost use Rattle.spf_reltext.specs.Facts.{atom_facts, constraints_facts, fact, ix_facts};

use crate::raw::{RawAtom, RawConstraint, RawIx};
use spf_base::{Name, NoMemory};
use sqlite_items::Items;
use std::alloc::Global;

/// A monomial, nested ones too: its number, and what that multiplies.
#[derive(Drop)]
pub struct Fact {
    pub number: u64,
    pub role: Role,
}

#[derive(Drop)]
pub enum Role {
    /// Nothing: the number stands alone.
    Alone,
    Plain(Name),
    /// The name has brackets behind it.
    Entry(Name),
}

fn push_fact(facts: &mut Items<Fact>, number: u64, role: Role) -> Result<(), NoMemory>
    ensures { OnOk result (facts.new ≡ facts.old ++ fact number role ∷ []) }
{
    facts.push(Fact { number, role })?;
    Ok(())
}

#[cycle(facts)]
fn push_atom(
    alloc: Global,
    facts: &mut Items<Fact>,
    number: u64,
    atom: &RawAtom,
) -> Result<(), NoMemory>
    ensures { OnOk result (facts.new ≡ facts.old ++ atom_facts number atom.now) }
{
    match atom {
        RawAtom::Unit => push_fact(facts, number, Role::Alone),
        RawAtom::Plain(name) => {
            let name = Name::copy(alloc, name.bytes())?;
            push_fact(facts, number, Role::Plain(name))
        }
        RawAtom::Entry { name, at } => {
            let name = Name::copy(alloc, name.bytes())?;
            push_fact(facts, number, Role::Entry(name))?;
            push_ix(alloc, facts, at)
        }
    }
}

/// Writes the facts of an index expression behind the others. Linear in it; recurses as deep as its brackets.
#[cycle(facts)]
fn push_ix(alloc: Global, facts: &mut Items<Fact>, ix: &RawIx) -> Result<(), NoMemory>
    ensures { OnOk result (facts.new ≡ facts.old ++ ix_facts ix.now) }
{
    for mono in ix.monos.as_slice() {
        push_atom(alloc, facts, mono.number, &mono.atom)?;
    }
    Ok(())
}

/// The facts of an index expression. Linear in it.
pub(crate) fn facts_of(alloc: Global, ix: &RawIx) -> Result<Items<Fact>, NoMemory>
    ensures { IfOk result (λ facts. facts ≡ ix_facts ix.now) }
{
    let mut facts = Items::new(alloc);
    push_ix(alloc, &mut facts, ix)?;
    Ok(facts)
}

/// The facts of constraints. Linear in them.
pub(crate) fn facts_in(
    alloc: Global,
    constraints: &[RawConstraint],
) -> Result<Items<Fact>, NoMemory>
    ensures { IfOk result (λ facts. facts ≡ constraints_facts constraints.now) }
{
    let mut facts = Items::new(alloc);
    for constraint in constraints {
        push_ix(alloc, &mut facts, &constraint.left)?;
        push_ix(alloc, &mut facts, &constraint.right)?;
    }
    Ok(facts)
}
