//! Reading a set or a relation.

ghost use Rattle.std.specs.Prelude.{◌≡◌, ◌≤◌, length, None, IfOk, OnOk, OnErr};
ghost use Rattle.spf_lex.specs.Tokens.{texts};
ghost use Rattle.spf_rel.specs.Meaning.{IsFormedRel, IsFormedSet};
ghost use Rattle.spf_reltext.specs.Names.{Extends, names_of};
ghost use Rattle.spf_reltext.specs.Resolved.{rel_of, set_of};
ghost use Rattle.spf_reltext.specs.Parsed.{IsLiteralsAnswer, IsRelAnswer, IsSetAnswer, IsTested, fault_of};
ghost use Rattle.spf_reltext.specs.Rules.{least_rule};
ghost use Rattle.spf_reltext.specs.declared.rules.Wanted.TheVariants as wanted;

use crate::kind::CalcKind;
use crate::literal::Literals;
use crate::meaning::{rel_of, set_of};
use crate::names::{RelNames, note_literals};
use crate::raw::RawLiteral;
use crate::rules::{Shape, Wanted, least_rule, shape_of_all};
use spf_base::{NoMemory, Place};
use spf_lex::{PartFault, TextKind, Tokens, part_at};
use spf_rel::{Rel, Set};
use std::alloc::Global;
use thiserror::Error;

/// Why no set or relation was read.
#[derive(Debug, Drop, Error)]
pub enum RelTextFault {
    /// The token there, or the end, is the first that no literals have there.
    #[error("syntax")]
    Syntax { place: Place, kind: TextKind },
    /// The least rule that the literals break, the number of the token behind them, and the shape of the first one.
    #[error("rule {rule}")]
    Rule { rule: u32, next: u32, shape: Shape },
    #[error("out of memory")]
    Memory,
}

impl From<NoMemory> for RelTextFault {
    ghost use Rattle.std.specs.Prelude.{◌≡◌};
    ghost use Rattle.spf_reltext.specs.declared.parse.RelTextFault.TheVariants.{Memory};

    ghost from_gives = { λ _ fault. fault ≡ Memory };

    fn from(_error: NoMemory) -> RelTextFault {
        RelTextFault::Memory
    }
}

fn fault_of(fault: PartFault) -> RelTextFault
    ensures { result ≡ fault_of fault }
{
    match fault {
        PartFault::Syntax { place, kind } => RelTextFault::Syntax { place, kind },
        PartFault::Memory => RelTextFault::Memory,
    }
}

/// The literals, where they break no rule.
fn tested(
    alloc: Global,
    wanted: Wanted,
    literals: Literals,
    next: u32,
) -> Result<(Literals, u32), RelTextFault>
    ensures { IsTested wanted literals next result }
{
    match least_rule(alloc, wanted, literals.list.as_slice()) {
        Ok(None) => Ok((literals, next)),
        Ok(Some(rule)) => Err(RelTextFault::Rule {
            rule,
            next,
            shape: shape_of_all(literals.list.as_slice()),
        }),
        Err(NoMemory) => Err(RelTextFault::Memory),
    }
}

/// The literals from token `from` on, where they break no rule.
fn literals_at(
    alloc: Global,
    tokens: &Tokens,
    from: u32,
    wanted: Wanted,
) -> Result<(Literals, u32), RelTextFault>
    requires { from ≤ length (texts tokens.now) }
    ensures { IsLiteralsAnswer tokens.now from wanted result }
{
    match part_at::<CalcKind, Literals>(alloc, tokens, from) {
        Ok((literals, next)) => tested(alloc, wanted, literals, next),
        Err(fault) => Err(fault_of(fault)),
    }
}

/// The relation that literals mean. The names grow by those that they use first, also where memory runs out on the way.
fn noted_rel(alloc: Global, names: &mut RelNames, literals: &[RawLiteral]) -> Result<Rel, NoMemory>
    requires { least_rule wanted.Relation literals.now ≡ None }
    ensures rel { IfOk result (λ rel. rel ≡ rel_of names.new literals.now) }
    ensures formed { IfOk result IsFormedRel }
    ensures noted { OnOk result (names.new ≡ names_of names.old literals.now) }
    ensures begun { OnErr result (Extends names.old names.new) }
{
    note_literals(alloc, names, literals)?;
    rel_of(alloc, names, literals)
}

/// The set that literals mean. The names grow by those that they use first, also where memory runs out on the way.
fn noted_set(alloc: Global, names: &mut RelNames, literals: &[RawLiteral]) -> Result<Set, NoMemory>
    requires { least_rule wanted.Set literals.now ≡ None }
    ensures set { IfOk result (λ set. set ≡ set_of names.new literals.now) }
    ensures formed { IfOk result IsFormedSet }
    ensures noted { OnOk result (names.new ≡ names_of names.old literals.now) }
    ensures begun { OnErr result (Extends names.old names.new) }
{
    note_literals(alloc, names, literals)?;
    set_of(alloc, names, literals)
}

/// Reads the relation that stands from token `from` on, and gives the number of the token behind it. The names grow by
/// those that it uses first; after a refusal they are as before. Linear in the tokens on average, but each name is looked for among
/// the variables of its literal.
pub fn parse_rel(
    alloc: Global,
    tokens: &Tokens,
    from: u32,
    names: &mut RelNames,
) -> Result<(Rel, u32), RelTextFault>
    requires { from ≤ length (texts tokens.now) }
    ensures answer { IsRelAnswer tokens.now from names.old names.new result }
    ensures formed { IfOk result (λ found. IsFormedRel found.0) }
{
    let (literals, next) = literals_at(alloc, tokens, from, Wanted::Relation)?;
    let list = literals.list.as_slice();
    let (params, funs) = (names.params.len(), names.funs.len());
    match noted_rel(alloc, names, list) {
        Ok(rel) => Ok((rel, next)),
        Err(NoMemory) => {
            names.truncate(params, funs);
            Err(RelTextFault::Memory)
        }
    }
}

/// Reads the set that stands from token `from` on, and gives the number of the token behind it. The names grow by those
/// that it uses first; after a refusal they are as before. Linear in the tokens on average, but each name is looked for among the
/// variables of its literal.
pub fn parse_set(
    alloc: Global,
    tokens: &Tokens,
    from: u32,
    names: &mut RelNames,
) -> Result<(Set, u32), RelTextFault>
    requires { from ≤ length (texts tokens.now) }
    ensures answer { IsSetAnswer tokens.now from names.old names.new result }
    ensures formed { IfOk result (λ found. IsFormedSet found.0) }
{
    let (literals, next) = literals_at(alloc, tokens, from, Wanted::Set)?;
    let list = literals.list.as_slice();
    let (params, funs) = (names.params.len(), names.funs.len());
    match noted_set(alloc, names, list) {
        Ok(set) => Ok((set, next)),
        Err(NoMemory) => {
            names.truncate(params, funs);
            Err(RelTextFault::Memory)
        }
    }
}
