//! The names of parameters and functions, numbered by their first use.

ghost use Rattle.std.specs.Prelude.{◌≡◌, List, [], ◌++◌, length, take, position, OnOk, OnErr, IfOk};
ghost use Rattle.std.specs.Option.{unwrap_or};
ghost use Rattle.std.specs.Str.{bytes_eq};
ghost use Rattle.spf_reltext.specs.declared.names.RelNames.{RelNames as NamesBefore};
ghost use Rattle.spf_reltext.specs.declared.raw.RawLiteral.{RawLiteral};
ghost use Rattle.spf_reltext.specs.Names.{Extends, fact_names, literal_names, names_of, noted, number_of};

use crate::fact::{Fact, Role, facts_in};
use crate::name_set::NameSet;
use crate::raw::RawLiteral;
use crate::rules::{contains, is_same, variables};
use spf_base::{Name, NoMemory};
use std::alloc::Global;

/// The names of parameters and of functions, each at its number.
#[derive(Drop)]
pub struct RelNames {
    pub params: NameSet,
    pub funs: NameSet,
}

impl RelNames {
    pub fn new(alloc: Global) -> RelNames
        ensures params { result.params ≡ [] }
        ensures funs { result.funs ≡ [] }
    {
        RelNames {
            params: NameSet::new(alloc),
            funs: NameSet::new(alloc),
        }
    }

    /// Keeps the first so many of the parameters and of the functions. Linear in those that go.
    pub(crate) fn truncate(&mut self, params: usize, funs: usize)
        ensures params { self.new.params ≡ take params self.old.params }
        ensures funs { self.new.funs ≡ take funs self.old.funs }
    {
        self.params.truncate(params);
        self.funs.truncate(funs);
    }
}

/// A place as a number of 32 bits. There is none for a place that only more than 2^32 names have, which is told as want of
/// memory.
pub(crate) fn number(place: usize) -> Result<u32, NoMemory>
    ensures { IfOk result (λ number. number ≡ place) }
{
    match u32::try_from(place) {
        Ok(number) => Ok(number),
        Err(_) => Err(NoMemory),
    }
}

fn place_of(names: &[Name], name: &Name) -> Option<usize>
    ensures { result ≡ position (bytes_eq name.now) names.now }
{
    names.iter().position(|other| is_same(name, other))
}

/// The number of a name, or how many there are. Linear in the names.
pub(crate) fn number_of(names: &[Name], name: &Name) -> Result<u32, NoMemory>
    ensures { IfOk result (λ number. number ≡ number_of names.now name.now) }
{
    number(place_of(names, name).unwrap_or(names.len()))
}

fn note(
    alloc: Global,
    names: &mut RelNames,
    variables: &[Name],
    role: &Role,
) -> Result<(), NoMemory>
    ensures noted { OnOk result (names.new ≡ noted variables.now names.old role.now) }
    ensures begun { OnErr result (Extends names.old names.new) }
{
    match role {
        Role::Alone => Ok(()),
        Role::Plain(name) => {
            if contains(variables, name) {
                return Ok(());
            }
            names.params.insert(alloc, name)
        }
        Role::Entry(name) => names.funs.insert(alloc, name),
    }
}

fn note_facts(
    alloc: Global,
    names: &mut RelNames,
    variables: &[Name],
    facts: &[Fact],
) -> Result<(), NoMemory>
    ensures noted { OnOk result (names.new ≡ fact_names variables.now names.old facts.now) }
    ensures begun { OnErr result (Extends names.old names.new) }
{
    for fact in facts {
        note(alloc, names, variables, &fact.role)?;
    }
    Ok(())
}

fn note_literal(alloc: Global, names: &mut RelNames, literal: &RawLiteral) -> Result<(), NoMemory>
    ensures noted { OnOk result (names.new ≡ literal_names names.old literal.now) }
    ensures begun { OnErr result (Extends names.old names.new) }
{
    let variables = variables(alloc, literal)?;
    let facts = facts_in(alloc, literal.constraints.as_slice())?;
    note_facts(alloc, names, variables.as_slice(), facts.as_slice())
}

/// Puts the names that the literals use first behind the others. Linear in the monomials on average, but each is looked for
/// among the variables of its literal.
pub(crate) fn note_literals(
    alloc: Global,
    names: &mut RelNames,
    literals: &[RawLiteral],
) -> Result<(), NoMemory>
    ensures noted { OnOk result (names.new ≡ names_of names.old literals.now) }
    ensures begun { OnErr result (Extends names.old names.new) }
{
    for literal in literals {
        note_literal(alloc, names, literal)?;
    }
    Ok(())
}

/// Law: what the names have stays at its number.
pub fn names_are_kept()
    ensures { (names : NamesBefore) (literals : List RawLiteral) → Extends names (names_of names literals) }
{}
