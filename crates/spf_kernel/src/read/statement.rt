//! Readers of loops and what stands in them.

ghost use Rattle.std.specs.Prelude.{◌≡◌};
ghost use Rattle.spf_lex.specs.Production.{begins};
ghost use Rattle.spf_lex.specs.Reader.{Reads};
ghost use Rattle.spf_kernel.specs.Productions as p;

use crate::raw::{RawAssign, RawCond, RawGuard, RawItem, RawLoop, RawPart, RawRange};
use crate::read::ix::{BRACKETS, in_brackets, ix};
use crate::read::value::{PARENTHESES, value};
use crate::signs::becomes;
use crate::tree::Compare;
use spf_lex::{Cursor, Kind, Part, ReadFault, enclosed, keyword, separated};
use std::alloc::Global;

impl Part<Kind> for RawAssign {
    ghost begins = { begins p.assign };

    ghost reading = { p.assign.read };

    #[tactic(auto, unfolding(crate::specs::Productions::assign, spf_lex::specs::LookAhead::first, spf_lex::specs::LookAhead::nullable))]
    fn begins(tokens: &Cursor<Kind>) -> bool {
        tokens.sees_any(&[Kind::Name])
    }

    #[tactic(auto, unfolding(crate::specs::Productions::assign))]
    fn parse(alloc: Global, tokens: &mut Cursor<Kind>) -> Result<RawAssign, ReadFault> {
        let array = tokens.expect(Kind::Name)?;
        let at = in_brackets(alloc, tokens)?;
        let sign = becomes(tokens)?;
        let value = value(alloc, tokens, PARENTHESES)?;
        tokens.expect(Kind::Semicolon)?;
        Ok(RawAssign {
            array,
            at,
            sign,
            value,
        })
    }
}

impl Part<Kind> for RawCond {
    ghost begins = { begins p.cond };

    ghost reading = { p.cond.read };

    #[tactic(auto, unfolding(crate::specs::Productions::cond, crate::specs::Productions::ix, crate::specs::Productions::sum, crate::specs::Productions::first_step, crate::specs::Productions::mono, crate::specs::Productions::numbered, crate::specs::Productions::number, crate::specs::Productions::atom, crate::specs::Productions::subscripted, spf_lex::specs::LookAhead::first, spf_lex::specs::LookAhead::nullable))]
    fn begins(tokens: &Cursor<Kind>) -> bool {
        tokens.sees_any(&[Kind::Minus, Kind::One, Kind::Number, Kind::Name])
    }

    #[tactic(auto, unfolding(crate::specs::Productions::cond, crate::specs::Productions::compare))]
    fn parse(alloc: Global, tokens: &mut Cursor<Kind>) -> Result<RawCond, ReadFault> {
        let signs = [
            (Kind::Equal, Compare::Equal),
            (Kind::Unequal, Compare::Unequal),
            (Kind::Less, Compare::Less),
            (Kind::AtMost, Compare::AtMost),
            (Kind::Greater, Compare::Greater),
            (Kind::AtLeast, Compare::AtLeast),
        ];
        let left = ix(alloc, tokens, BRACKETS)?;
        let sign = keyword(tokens, &signs)?;
        let right = ix(alloc, tokens, BRACKETS)?;
        Ok(RawCond { left, sign, right })
    }
}

#[tactic(auto, unfolding(crate::specs::Productions::guard))]
fn guard(alloc: Global, tokens: &mut Cursor<Kind>) -> Result<RawGuard, ReadFault>
    ensures { Reads (p.guard.read tokens.old) result tokens.new }
{
    tokens.expect(Kind::If)?;
    let conds = separated(alloc, tokens, Kind::And)?;
    let body = enclosed(alloc, tokens, Kind::OpenBrace, Kind::CloseBrace)?;
    Ok(RawGuard { conds, body })
}

#[tactic(auto, unfolding(crate::specs::Productions::range))]
fn range(alloc: Global, tokens: &mut Cursor<Kind>) -> Result<RawRange, ReadFault>
    ensures { Reads (p.range.read tokens.old) result tokens.new }
{
    let var = tokens.expect(Kind::Name)?;
    tokens.expect(Kind::In)?;
    let low = ix(alloc, tokens, BRACKETS)?;
    tokens.expect(Kind::Range)?;
    let high = ix(alloc, tokens, BRACKETS)?;
    Ok(RawRange { var, low, high })
}

impl Part<Kind> for RawPart {
    ghost begins = { begins p.part };

    ghost reading = { p.part.read };

    #[tactic(auto, unfolding(crate::specs::Productions::part, crate::specs::Productions::assign, crate::specs::Productions::guard, spf_lex::specs::LookAhead::first, spf_lex::specs::LookAhead::nullable))]
    fn begins(tokens: &Cursor<Kind>) -> bool {
        tokens.sees_any(&[Kind::Name, Kind::If])
    }

    #[tactic(auto, unfolding(crate::specs::Productions::part))]
    fn parse(alloc: Global, tokens: &mut Cursor<Kind>) -> Result<RawPart, ReadFault> {
        if RawAssign::begins(tokens) {
            Ok(RawPart::Assign(RawAssign::read(alloc, tokens)?))
        } else {
            Ok(RawPart::Guard(guard(alloc, tokens)?))
        }
    }
}

#[tactic(auto, unfolding(crate::specs::Productions::inner))]
fn inner(alloc: Global, tokens: &mut Cursor<Kind>) -> Result<RawItem, ReadFault>
    ensures { Reads (p.inner.read tokens.old) result tokens.new }
{
    tokens.expect(Kind::For)?;
    let range = range(alloc, tokens)?;
    let parts = enclosed(alloc, tokens, Kind::OpenBrace, Kind::CloseBrace)?;
    Ok(RawItem::Inner(range, parts))
}

impl Part<Kind> for RawItem {
    ghost begins = { begins p.item };

    ghost reading = { p.item.read };

    #[tactic(auto, unfolding(crate::specs::Productions::item, crate::specs::Productions::inner, crate::specs::Productions::part, crate::specs::Productions::assign, crate::specs::Productions::guard, spf_lex::specs::LookAhead::first, spf_lex::specs::LookAhead::nullable))]
    fn begins(tokens: &Cursor<Kind>) -> bool {
        tokens.sees_any(&[Kind::Name, Kind::If, Kind::For])
    }

    #[tactic(auto, unfolding(crate::specs::Productions::item))]
    fn parse(alloc: Global, tokens: &mut Cursor<Kind>) -> Result<RawItem, ReadFault> {
        if RawPart::begins(tokens) {
            Ok(RawItem::Part(RawPart::read(alloc, tokens)?))
        } else {
            inner(alloc, tokens)
        }
    }
}

impl Part<Kind> for RawLoop {
    ghost begins = { begins p.one_loop };

    ghost reading = { p.one_loop.read };

    #[tactic(auto, unfolding(crate::specs::Productions::one_loop, spf_lex::specs::LookAhead::first, spf_lex::specs::LookAhead::nullable))]
    fn begins(tokens: &Cursor<Kind>) -> bool {
        tokens.sees_any(&[Kind::Loop])
    }

    /// A loop, with all that stands in it.
    #[tactic(auto, unfolding(crate::specs::Productions::one_loop))]
    fn parse(alloc: Global, tokens: &mut Cursor<Kind>) -> Result<RawLoop, ReadFault> {
        tokens.expect(Kind::Loop)?;
        let name = tokens.expect(Kind::Name)?;
        tokens.expect(Kind::OpenParenthesis)?;
        let range = range(alloc, tokens)?;
        tokens.expect(Kind::CloseParenthesis)?;
        let items = enclosed(alloc, tokens, Kind::OpenBrace, Kind::CloseBrace)?;
        Ok(RawLoop { name, range, items })
    }
}
