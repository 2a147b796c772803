//! Readers of expressions, with operations so many deep.

ghost use Rattle.std.specs.Prelude.{◌≡◌};
ghost use Rattle.spf_lex.specs.Derivation.{made};
ghost use Rattle.spf_lex.specs.Production.{behind, begins, between, optional};
ghost use Rattle.spf_lex.specs.Reader.{Reads, Takes};
ghost use Rattle.spf_calc.specs.Productions as p;
ghost use Rattle.spf_calc.specs.declared.raw.RawExp.TheVariants as exp_is;
ghost use Rattle.spf_reltext.specs.Productions as literal;
ghost use Rattle.spf_reltext.specs.declared.kind.CalcKind.TheVariants as kind;

use crate::raw::{Operation, RawExp};
use spf_lex::{Cursor, Part, ReadFault, Unexpected, keyword};
use spf_reltext::{CalcKind, Literals};
use sqlite_items::Boxed;
use std::alloc::Global;

/// Greatest number of operations that stand within one another.
pub const NESTING: u32 = 8;

#[tactic(auto, unfolding(spf_reltext::specs::Productions::number, spf_lex::specs::LookAhead::first))]
fn number(tokens: &mut Cursor<CalcKind>) -> Result<u64, Unexpected>
    ensures { Takes (literal.number.read tokens.old) result tokens.new }
{
    let token = if tokens.sees_any(&[CalcKind::One]) {
        tokens.expect(CalcKind::One)?
    } else {
        tokens.expect(CalcKind::Number)?
    };
    Ok(token.value)
}

#[tactic(auto, unfolding(crate::specs::Productions::operation))]
fn operation(tokens: &mut Cursor<CalcKind>) -> Result<Operation, Unexpected>
    ensures { Takes (p.operation.read tokens.old) result tokens.new }
{
    let operations = [
        (CalcKind::Compose, Operation::Compose),
        (CalcKind::Apply, Operation::Apply),
        (CalcKind::Union, Operation::Union),
        (CalcKind::Intersect, Operation::Intersect),
        (CalcKind::Restrict, Operation::Restrict),
    ];
    keyword(tokens, &operations)
}

/// The number behind a comma, where one stands.
#[tactic(auto, unfolding(spf_lex::specs::LookAhead::first, spf_lex::specs::LookAhead::nullable))]
fn outputs(tokens: &mut Cursor<CalcKind>) -> Result<Option<u64>, Unexpected>
    ensures { Takes ((optional (behind kind.Comma literal.number)).read tokens.old) result tokens.new }
{
    if !tokens.sees_any(&[CalcKind::Comma]) {
        return Ok(None);
    }
    tokens.expect(CalcKind::Comma)?;
    Ok(Some(number(tokens)?))
}

#[tactic(auto, unfolding(crate::specs::Productions::nothing))]
fn nothing(tokens: &mut Cursor<CalcKind>) -> Result<RawExp, ReadFault>
    ensures { Reads (p.nothing.read tokens.old) result tokens.new }
{
    tokens.expect(CalcKind::Nothing)?;
    tokens.expect(CalcKind::OpenParenthesis)?;
    let ins = number(tokens)?;
    let outs = outputs(tokens)?;
    tokens.expect(CalcKind::CloseParenthesis)?;
    Ok(RawExp::Nothing { ins, outs })
}

fn literals(alloc: Global, tokens: &mut Cursor<CalcKind>) -> Result<RawExp, ReadFault>
    ensures { Reads (made exp_is.Literals (literal.literals.read tokens.old)) result tokens.new }
{
    Ok(RawExp::Literals(Literals::parse(alloc, tokens)?))
}

#[tactic(auto, unfolding(spf_reltext::specs::Productions::name))]
fn named(alloc: Global, tokens: &mut Cursor<CalcKind>) -> Result<RawExp, ReadFault>
    ensures { Reads (made exp_is.Named (literal.name.read tokens.old)) result tokens.new }
{
    Ok(RawExp::Named(tokens.name(alloc)?))
}

/// An expression without an operation.
#[tactic(auto, unfolding(crate::specs::Productions::leaf, spf_reltext::specs::Productions::name, spf_lex::specs::LookAhead::first, spf_lex::specs::LookAhead::nullable))]
fn leaf(alloc: Global, tokens: &mut Cursor<CalcKind>) -> Result<RawExp, ReadFault>
    ensures { Reads (p.leaf.read tokens.old) result tokens.new }
{
    if tokens.sees_any(&[CalcKind::Name]) {
        named(alloc, tokens)
    } else if Literals::begins(tokens) {
        literals(alloc, tokens)
    } else {
        nothing(tokens)
    }
}

/// An operation and its two operands.
#[cycle(exp)]
#[tactic(auto, unfolding(crate::specs::Productions::two))]
fn two(alloc: Global, tokens: &mut Cursor<CalcKind>, depth: u32) -> Result<RawExp, ReadFault>
    ensures { Reads ((p.two (p.exp depth)).read tokens.old) result tokens.new }
{
    let operation = operation(tokens)?;
    tokens.expect(CalcKind::OpenParenthesis)?;
    let first = Boxed::new(alloc, exp(alloc, tokens, depth)?)?;
    tokens.expect(CalcKind::Comma)?;
    let second = Boxed::new(alloc, exp(alloc, tokens, depth)?)?;
    tokens.expect(CalcKind::CloseParenthesis)?;
    Ok(RawExp::Two {
        operation,
        first,
        second,
    })
}

/// An operand in parentheses behind `inverse`.
#[cycle(exp)]
#[tactic(auto, unfolding(crate::specs::Productions::inverse))]
fn inverse(alloc: Global, tokens: &mut Cursor<CalcKind>, depth: u32) -> Result<RawExp, ReadFault>
    ensures { Reads ((p.inverse (p.exp depth)).read tokens.old) result tokens.new }
{
    tokens.expect(CalcKind::Inverse)?;
    tokens.expect(CalcKind::OpenParenthesis)?;
    let inside = exp(alloc, tokens, depth)?;
    tokens.expect(CalcKind::CloseParenthesis)?;
    Ok(RawExp::Inverse(Boxed::new(alloc, inside)?))
}

#[cycle(exp)]
#[tactic(auto, unfolding(crate::specs::Productions::nested, crate::specs::Productions::two, crate::specs::Productions::inverse, crate::specs::Productions::operation, spf_lex::specs::LookAhead::first, spf_lex::specs::LookAhead::nullable))]
fn nested(alloc: Global, tokens: &mut Cursor<CalcKind>, depth: u32) -> Result<RawExp, ReadFault>
    ensures { Reads ((p.nested (p.exp depth)).read tokens.old) result tokens.new }
{
    let operations = [
        CalcKind::Compose,
        CalcKind::Apply,
        CalcKind::Union,
        CalcKind::Intersect,
        CalcKind::Restrict,
    ];
    if tokens.sees_any(&operations) {
        two(alloc, tokens, depth)
    } else if tokens.sees_any(&[CalcKind::Inverse]) {
        inverse(alloc, tokens, depth)
    } else {
        leaf(alloc, tokens)
    }
}

/// An expression in which operations stand at most so deep within one another. Linear in its tokens; recurses as deep.
#[cycle(exp)]
#[tactic(auto, unfolding(crate::specs::Productions::exp))]
pub(crate) fn exp(
    alloc: Global,
    tokens: &mut Cursor<CalcKind>,
    depth: u32,
) -> Result<RawExp, ReadFault>
    ensures { Reads ((p.exp depth).read tokens.old) result tokens.new }
{
    if depth == 0 {
        leaf(alloc, tokens)
    } else {
        nested(alloc, tokens, depth - 1)
    }
}
