//! Readers of values, with parentheses so many deep.

ghost use Rattle.std.specs.Prelude.{◌≡◌, ◌++◌};
ghost use Rattle.spf_lex.specs.BundleWords.{same_kind};
ghost use Rattle.spf_lex.specs.Derivation.{made};
ghost use Rattle.spf_lex.specs.Production.{begins, between, separated};
ghost use Rattle.spf_lex.specs.Reader.{Reads, further, repeat, sees};
ghost use Rattle.spf_lex.specs.declared.kind.Kind.TheVariants as kind;
ghost use Rattle.spf_kernel.specs.Productions as p;
ghost use Rattle.spf_kernel.specs.declared.raw.RawFactor.TheVariants as factor_is;

use crate::raw::{RawFactor, RawSummand, RawValue};
use crate::read::ix::{BRACKETS, alone, atom, begins_sign, number};
use spf_lex::{Cursor, Kind, ReadFault, keyword};
use sqlite_items::{Boxed, Items};
use std::alloc::Global;

/// Greatest nesting depth of parentheses.
pub const PARENTHESES: u32 = 8;

fn numbered(tokens: &mut Cursor<Kind>) -> Result<RawFactor, ReadFault>
    ensures { Reads (made factor_is.Number (p.number.read tokens.old)) result tokens.new }
{
    Ok(RawFactor::Number(number(tokens)?))
}

#[tactic(auto, unfolding(crate::specs::Productions::plain))]
fn plain(alloc: Global, tokens: &mut Cursor<Kind>) -> Result<RawFactor, ReadFault>
    ensures { Reads (p.plain.read tokens.old) result tokens.new }
{
    Ok(RawFactor::Name(atom(alloc, tokens, BRACKETS)?))
}

/// A further factor, behind its `*`.
#[cycle(value)]
fn next_fact(alloc: Global, tokens: &mut Cursor<Kind>, depth: u32) -> Result<RawFactor, ReadFault>
    ensures { Reads (further same_kind kind.Star (p.fact depth).read tokens.old) result tokens.new }
{
    tokens.expect(Kind::Star)?;
    fact(alloc, tokens, depth)
}

/// Reads further factors onto a list.
#[cycle(value)]
fn next_facts(
    alloc: Global,
    tokens: &mut Cursor<Kind>,
    depth: u32,
    mut facts: Items<RawFactor>,
) -> Result<Items<RawFactor>, ReadFault>
    ensures { Reads (made (λ others. facts ++ others) (repeat (sees same_kind kind.Star) (further same_kind kind.Star (p.fact depth).read) tokens.old)) result tokens.new }
{
    for _turn in 0..tokens.left() {
        if !tokens.sees(Kind::Star) {
            return Ok(facts);
        }
        let next = next_fact(alloc, tokens, depth)?;
        facts.push(next)?;
    }
    Ok(facts)
}

#[cycle(value)]
#[tactic(auto, unfolding(spf_lex::specs::Reader::list_by))]
fn facts(
    alloc: Global,
    tokens: &mut Cursor<Kind>,
    depth: u32,
) -> Result<Items<RawFactor>, ReadFault>
    ensures { Reads ((separated kind.Star (p.fact depth)).read tokens.old) result tokens.new }
{
    let first = fact(alloc, tokens, depth)?;
    next_facts(alloc, tokens, depth, alone(alloc, first)?)
}

#[cycle(value)]
#[tactic(auto, unfolding(crate::specs::Productions::first_summand))]
fn first_summand(
    alloc: Global,
    tokens: &mut Cursor<Kind>,
    depth: u32,
) -> Result<RawSummand, ReadFault>
    ensures { Reads ((p.first_summand (p.fact depth)).read tokens.old) result tokens.new }
{
    let minus = tokens.eat(Kind::Minus);
    let facts = facts(alloc, tokens, depth)?;
    Ok(RawSummand { minus, facts })
}

#[cycle(value)]
#[tactic(auto, unfolding(crate::specs::Productions::next_summand))]
fn next_summand(
    alloc: Global,
    tokens: &mut Cursor<Kind>,
    depth: u32,
) -> Result<RawSummand, ReadFault>
    ensures { Reads ((p.next_summand (p.fact depth)).read tokens.old) result tokens.new }
{
    let minus = keyword(tokens, &[(Kind::Plus, false), (Kind::Minus, true)])?;
    let facts = facts(alloc, tokens, depth)?;
    Ok(RawSummand { minus, facts })
}

#[cycle(value)]
fn next_summands(
    alloc: Global,
    tokens: &mut Cursor<Kind>,
    depth: u32,
    mut summands: Items<RawSummand>,
) -> Result<Items<RawSummand>, ReadFault>
    ensures { Reads (made (λ others. summands ++ others) (repeat (begins (p.next_summand (p.fact depth))) (p.next_summand (p.fact depth)).read tokens.old)) result tokens.new }
{
    for _turn in 0..tokens.left() {
        if !begins_sign(tokens) {
            return Ok(summands);
        }
        let next = next_summand(alloc, tokens, depth)?;
        summands.push(next)?;
    }
    Ok(summands)
}

/// A value. Linear in its tokens.
#[cycle(value)]
#[tactic(auto, unfolding(crate::specs::Productions::value_of, crate::specs::Productions::value))]
pub fn value(alloc: Global, tokens: &mut Cursor<Kind>, depth: u32) -> Result<RawValue, ReadFault>
    ensures { Reads ((p.value depth).read tokens.old) result tokens.new }
{
    let first = first_summand(alloc, tokens, depth)?;
    let summands = next_summands(alloc, tokens, depth, alone(alloc, first)?)?;
    Ok(RawValue { summands })
}

#[cycle(value)]
fn parenthesized(
    alloc: Global,
    tokens: &mut Cursor<Kind>,
    depth: u32,
) -> Result<RawValue, ReadFault>
    ensures { Reads ((between kind.OpenParenthesis kind.CloseParenthesis (p.value depth)).read tokens.old) result tokens.new }
{
    tokens.expect(Kind::OpenParenthesis)?;
    let inside = value(alloc, tokens, depth)?;
    tokens.expect(Kind::CloseParenthesis)?;
    Ok(inside)
}

/// A value in parentheses, or a name.
#[cycle(value)]
#[tactic(auto, unfolding(crate::specs::Productions::nested, spf_lex::specs::LookAhead::first, spf_lex::specs::LookAhead::nullable))]
fn nested(alloc: Global, tokens: &mut Cursor<Kind>, depth: u32) -> Result<RawFactor, ReadFault>
    ensures { Reads ((p.nested (p.value depth)).read tokens.old) result tokens.new }
{
    if !tokens.sees_any(&[Kind::OpenParenthesis]) {
        return plain(alloc, tokens);
    }
    let inside = parenthesized(alloc, tokens, depth)?;
    Ok(RawFactor::Paren(Boxed::new(alloc, inside)?))
}

#[tactic(auto, unfolding(crate::specs::Productions::number, spf_lex::specs::LookAhead::first))]
fn begins_number(tokens: &Cursor<Kind>) -> bool
    ensures { result ≡ begins p.number tokens.now }
{
    tokens.sees_any(&[Kind::One, Kind::Number])
}

#[cycle(value)]
#[tactic(auto, unfolding(crate::specs::Productions::fact))]
fn fact(alloc: Global, tokens: &mut Cursor<Kind>, depth: u32) -> Result<RawFactor, ReadFault>
    ensures { Reads ((p.fact depth).read tokens.old) result tokens.new }
{
    if begins_number(tokens) {
        numbered(tokens)
    } else if depth == 0 {
        plain(alloc, tokens)
    } else {
        nested(alloc, tokens, depth - 1)
    }
}
