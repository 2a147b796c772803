//! Readers of literals, one production at a time.

ghost use Rattle.std.specs.Prelude.{ℕ, ◌≡◌};
ghost use Rattle.spf_base.specs.declared.place.Place.{Place};
ghost use Rattle.spf_lex.specs.Production.{behind, begins, optional, separated};
ghost use Rattle.spf_lex.specs.Reader.{Reads, Takes};
ghost use Rattle.spf_lex.specs.Standing.{IsSyntaxFault};
ghost use Rattle.spf_lex.specs.Tokens.{Tokenized};
ghost use Rattle.spf_lex.specs.declared.text_kind.TextKind.{TextKind};
ghost use Rattle.spf_reltext.specs.CalcWords.{calc_words};
ghost use Rattle.spf_reltext.specs.Parsed.{AreRead};
ghost use Rattle.spf_reltext.specs.Productions as p;
ghost use Rattle.spf_reltext.specs.declared.literal.Literals.{Literals as Read};
ghost use Rattle.spf_reltext.specs.declared.kind.CalcKind.TheVariants as kind;

use crate::ix::{BRACKETS, ix};
use crate::kind::CalcKind;
use crate::raw::{Compare, RawConstraint, RawLiteral};
use spf_base::Name;
use spf_lex::{Cursor, Part, ReadFault, TextPart, Unexpected, keyword, separated};
use sqlite_items::Items;
use std::alloc::Global;

#[tactic(auto, unfolding(crate::specs::Productions::compare))]
fn compare(tokens: &mut Cursor<CalcKind>) -> Result<Compare, Unexpected>
    ensures { Takes (p.compare.read tokens.old) result tokens.new }
{
    let signs = [
        (CalcKind::Equals, Compare::Equal),
        (CalcKind::AtMost, Compare::AtMost),
        (CalcKind::Less, Compare::Less),
        (CalcKind::AtLeast, Compare::AtLeast),
        (CalcKind::Greater, Compare::Greater),
    ];
    keyword(tokens, &signs)
}

#[tactic(auto, unfolding(crate::specs::Productions::constraint))]
fn constraint(alloc: Global, tokens: &mut Cursor<CalcKind>) -> Result<RawConstraint, ReadFault>
    ensures { Reads (p.constraint.read tokens.old) result tokens.new }
{
    let left = ix(alloc, tokens, BRACKETS)?;
    let sign = compare(tokens)?;
    let right = ix(alloc, tokens, BRACKETS)?;
    Ok(RawConstraint { left, sign, right })
}

#[tactic(auto, unfolding(crate::specs::Productions::constraint, crate::specs::Productions::ix, crate::specs::Productions::sum, crate::specs::Productions::first_mono, crate::specs::Productions::mono, crate::specs::Productions::numbered, crate::specs::Productions::number, crate::specs::Productions::atom, crate::specs::Productions::subscripted, crate::specs::Productions::name, spf_lex::specs::LookAhead::first, spf_lex::specs::LookAhead::nullable))]
fn begins_constraint(tokens: &Cursor<CalcKind>) -> bool
    ensures { result ≡ begins p.constraint tokens.now }
{
    tokens.sees_any(&[
        CalcKind::Minus,
        CalcKind::One,
        CalcKind::Number,
        CalcKind::Name,
    ])
}

impl Part<CalcKind> for RawConstraint {
    ghost begins = { begins p.constraint };

    ghost reading = { p.constraint.read };

    fn begins(tokens: &Cursor<CalcKind>) -> bool {
        begins_constraint(tokens)
    }

    fn parse(alloc: Global, tokens: &mut Cursor<CalcKind>) -> Result<RawConstraint, ReadFault> {
        constraint(alloc, tokens)
    }
}

#[tactic(auto, unfolding(crate::specs::Productions::names, crate::specs::Productions::name))]
fn names(alloc: Global, tokens: &mut Cursor<CalcKind>) -> Result<Items<Name>, ReadFault>
    ensures { Reads (p.names.read tokens.old) result tokens.new }
{
    separated(alloc, tokens, CalcKind::Comma)
}

#[tactic(auto, unfolding(crate::specs::Productions::tuple, crate::specs::Productions::names, crate::specs::Productions::name, spf_lex::specs::LookAhead::first, spf_lex::specs::LookAhead::nullable))]
fn tuple(alloc: Global, tokens: &mut Cursor<CalcKind>) -> Result<Items<Name>, ReadFault>
    ensures { Reads (p.tuple.read tokens.old) result tokens.new }
{
    tokens.expect(CalcKind::OpenBracket)?;
    let list = if tokens.sees_any(&[CalcKind::Name]) {
        names(alloc, tokens)?
    } else {
        Items::new(alloc)
    };
    tokens.expect(CalcKind::CloseBracket)?;
    Ok(list)
}

/// The tuple behind `->`, where one stands.
#[tactic(auto, unfolding(spf_lex::specs::LookAhead::first, spf_lex::specs::LookAhead::nullable))]
fn outputs(alloc: Global, tokens: &mut Cursor<CalcKind>) -> Result<Option<Items<Name>>, ReadFault>
    ensures { Reads ((optional (behind kind.Arrow p.tuple)).read tokens.old) result tokens.new }
{
    if !tokens.sees_any(&[CalcKind::Arrow]) {
        return Ok(None);
    }
    tokens.expect(CalcKind::Arrow)?;
    Ok(Some(tuple(alloc, tokens)?))
}

/// The names behind `with`, where it stands.
#[tactic(auto, unfolding(crate::specs::Productions::inner, spf_lex::specs::LookAhead::first, spf_lex::specs::LookAhead::nullable))]
fn inner(alloc: Global, tokens: &mut Cursor<CalcKind>) -> Result<Items<Name>, ReadFault>
    ensures { Reads (p.inner.read tokens.old) result tokens.new }
{
    if !tokens.sees_any(&[CalcKind::With]) {
        return Ok(Items::new(alloc));
    }
    tokens.expect(CalcKind::With)?;
    names(alloc, tokens)
}

/// The constraints behind `:`, where it stands.
#[tactic(auto, unfolding(crate::specs::Productions::constraints, spf_lex::specs::LookAhead::first, spf_lex::specs::LookAhead::nullable))]
fn constraints(
    alloc: Global,
    tokens: &mut Cursor<CalcKind>,
) -> Result<Items<RawConstraint>, ReadFault>
    ensures { Reads (p.constraints.read tokens.old) result tokens.new }
{
    if !tokens.sees_any(&[CalcKind::Colon]) {
        return Ok(Items::new(alloc));
    }
    tokens.expect(CalcKind::Colon)?;
    separated(alloc, tokens, CalcKind::And)
}

#[tactic(auto, unfolding(crate::specs::Productions::literal))]
fn literal(alloc: Global, tokens: &mut Cursor<CalcKind>) -> Result<RawLiteral, ReadFault>
    ensures { Reads (p.literal.read tokens.old) result tokens.new }
{
    tokens.expect(CalcKind::OpenBrace)?;
    let ins = tuple(alloc, tokens)?;
    let outs = outputs(alloc, tokens)?;
    let inner = inner(alloc, tokens)?;
    let constraints = constraints(alloc, tokens)?;
    tokens.expect(CalcKind::CloseBrace)?;
    Ok(RawLiteral {
        ins,
        outs,
        inner,
        constraints,
    })
}

#[tactic(auto, unfolding(crate::specs::Productions::literal, spf_lex::specs::LookAhead::first, spf_lex::specs::LookAhead::nullable))]
fn begins_literal(tokens: &Cursor<CalcKind>) -> bool
    ensures { result ≡ begins p.literal tokens.now }
{
    tokens.sees_any(&[CalcKind::OpenBrace])
}

impl Part<CalcKind> for RawLiteral {
    ghost begins = { begins p.literal };

    ghost reading = { p.literal.read };

    fn begins(tokens: &Cursor<CalcKind>) -> bool {
        begins_literal(tokens)
    }

    fn parse(alloc: Global, tokens: &mut Cursor<CalcKind>) -> Result<RawLiteral, ReadFault> {
        literal(alloc, tokens)
    }
}

/// The literals of a set or relation, of which there is one at least.
#[derive(Drop)]
pub struct Literals {
    pub list: Items<RawLiteral>,
}

#[tactic(auto, unfolding(crate::specs::Productions::literals))]
fn literal_list(alloc: Global, tokens: &mut Cursor<CalcKind>) -> Result<Literals, ReadFault>
    ensures { Reads (p.literals.read tokens.old) result tokens.new }
{
    let list = separated(alloc, tokens, CalcKind::Bar)?;
    Ok(Literals { list })
}

#[tactic(auto, unfolding(crate::specs::Productions::literals, crate::specs::Productions::literal, spf_lex::specs::LookAhead::first, spf_lex::specs::LookAhead::nullable))]
fn begins_literals(tokens: &Cursor<CalcKind>) -> bool
    ensures { result ≡ begins p.literals tokens.now }
{
    tokens.sees_any(&[CalcKind::OpenBrace])
}

impl Part<CalcKind> for Literals {
    ghost begins = { begins p.literals };

    ghost reading = { p.literals.read };

    fn begins(tokens: &Cursor<CalcKind>) -> bool {
        begins_literals(tokens)
    }

    fn parse(alloc: Global, tokens: &mut Cursor<CalcKind>) -> Result<Literals, ReadFault> {
        literal_list(alloc, tokens)
    }
}

impl TextPart<CalcKind> for Literals {
    ghost use Rattle.spf_lex.specs.Suffix.{leaves_suffix};
    ghost use Rattle.spf_reltext.specs.CalcWords.{same_kind};
    ghost use Rattle.spf_reltext.specs.Productions.{literals};

    ghost suffix = { leaves_suffix same_kind literals };
}

/// Law: at a token literals are read in one way, or there is a fault of syntax.
pub fn one_list_of_literals()
    ensures one { (tokens : Tokenized) (from n m : ℕ) (a b : Read) → AreRead tokens from n a → AreRead tokens from m b → (n ≡ m) × (a ≡ b) }
    ensures no_fault { (tokens : Tokenized) (from n : ℕ) (a : Read) (place : Place) (kind : TextKind) → AreRead tokens from n a →
        ¬ IsSyntaxFault calc_words p.literals tokens from place kind }
{}
