//! The input part of a bundle: for each name its values, which stay among the tokens.

ghost use Rattle.std.specs.Prelude.{◌≡◌};
ghost use Rattle.spf_lex.specs.Production.{begins};
ghost use Rattle.spf_lex.specs.Reader.{Reads, Takes};
ghost use Rattle.spf_input.specs.Productions as p;

use spf_lex::{Cursor, Kind, Part, ReadFault, Token, Unexpected, repeated};
use sqlite_items::Items;
use std::alloc::Global;

/// A name and its values, which are the tokens between the one with the number `from` and the one with the number `to`.
#[derive(Drop)]
pub struct RawEntry {
    pub name: Token,
    pub from: u32,
    pub to: u32,
}

/// The entries of the input part, in the order of the text.
#[derive(Drop)]
pub struct RawInput {
    pub entries: Items<RawEntry>,
}

#[tactic(auto, unfolding(crate::specs::Productions::given, spf_lex::specs::LookAhead::first))]
fn given(tokens: &mut Cursor<Kind>) -> Result<Token, Unexpected>
    ensures { Takes (p.given.read tokens.old) result tokens.new }
{
    tokens.eat(Kind::Minus);
    if tokens.sees_any(&[Kind::One]) {
        tokens.expect(Kind::One)
    } else {
        tokens.expect(Kind::Number)
    }
}

#[tactic(auto, unfolding(crate::specs::Productions::given, spf_lex::specs::LookAhead::first, spf_lex::specs::LookAhead::nullable))]
fn begins_given(tokens: &Cursor<Kind>) -> bool
    ensures { result ≡ begins p.given tokens.now }
{
    tokens.sees_any(&[Kind::Minus, Kind::One, Kind::Number])
}

/// Goes past the values of a name. Linear in them, and takes no memory.
#[tactic(auto, unfolding(crate::specs::Productions::values))]
fn values(tokens: &mut Cursor<Kind>) -> Result<(), Unexpected>
    ensures { Takes (p.values.read tokens.old) result tokens.new }
{
    for _turn in 0..tokens.left() {
        if !begins_given(tokens) {
            return Ok(());
        }
        given(tokens)?;
    }
    Ok(())
}

#[tactic(auto, unfolding(crate::specs::Productions::entry))]
fn entry(tokens: &mut Cursor<Kind>) -> Result<RawEntry, Unexpected>
    ensures { Takes (p.entry.read tokens.old) result tokens.new }
{
    let name = tokens.expect(Kind::Name)?;
    let equals = tokens.expect(Kind::Equals)?;
    values(tokens)?;
    let end = tokens.expect(Kind::Semicolon)?;
    Ok(RawEntry {
        name,
        from: equals.at,
        to: end.at,
    })
}

#[tactic(auto, unfolding(crate::specs::Productions::entry, spf_lex::specs::LookAhead::first, spf_lex::specs::LookAhead::nullable))]
fn begins_entry(tokens: &Cursor<Kind>) -> bool
    ensures { result ≡ begins p.entry tokens.now }
{
    tokens.sees_any(&[Kind::Name])
}

impl Part<Kind> for RawEntry {
    ghost begins = { begins p.entry };

    ghost reading = { p.entry.read };

    fn begins(tokens: &Cursor<Kind>) -> bool {
        begins_entry(tokens)
    }

    fn parse(_alloc: Global, tokens: &mut Cursor<Kind>) -> Result<RawEntry, ReadFault> {
        Ok(entry(tokens)?)
    }
}

/// The input part. Linear in its tokens.
#[tactic(auto, unfolding(crate::specs::Productions::input))]
pub fn input(alloc: Global, tokens: &mut Cursor<Kind>) -> Result<RawInput, ReadFault>
    ensures { Reads (p.input.read tokens.old) result tokens.new }
{
    tokens.expect(Kind::Input)?;
    tokens.expect(Kind::OpenBrace)?;
    let entries = repeated(alloc, tokens)?;
    tokens.expect(Kind::CloseBrace)?;
    Ok(RawInput { entries })
}
