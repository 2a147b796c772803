//! Readers of statements, and of calculator texts.

ghost use Rattle.std.specs.Prelude.{◌≡◌};
ghost use Rattle.spf_lex.specs.Production.{begins};
ghost use Rattle.spf_lex.specs.Reader.{Reads};
ghost use Rattle.spf_calc.specs.Productions as p;

use crate::exp::{NESTING, exp};
use crate::raw::{RawCalc, RawStatement};
use spf_lex::{Cursor, Part, ReadFault, TextPart, repeated};
use spf_reltext::CalcKind;
use std::alloc::Global;

#[tactic(auto, unfolding(crate::specs::Productions::binding, spf_reltext::specs::Productions::name))]
fn binding(alloc: Global, tokens: &mut Cursor<CalcKind>) -> Result<RawStatement, ReadFault>
    ensures { Reads (p.binding.read tokens.old) result tokens.new }
{
    tokens.expect(CalcKind::Let)?;
    let name = tokens.name(alloc)?;
    tokens.expect(CalcKind::Equals)?;
    let exp = exp(alloc, tokens, NESTING)?;
    tokens.expect(CalcKind::Semicolon)?;
    Ok(RawStatement::Let { name, exp })
}

#[tactic(auto, unfolding(crate::specs::Productions::show))]
fn show(alloc: Global, tokens: &mut Cursor<CalcKind>) -> Result<RawStatement, ReadFault>
    ensures { Reads (p.show.read tokens.old) result tokens.new }
{
    tokens.expect(CalcKind::Show)?;
    let exp = exp(alloc, tokens, NESTING)?;
    tokens.expect(CalcKind::Semicolon)?;
    Ok(RawStatement::Show(exp))
}

#[tactic(auto, unfolding(crate::specs::Productions::function))]
fn function(alloc: Global, tokens: &mut Cursor<CalcKind>) -> Result<RawStatement, ReadFault>
    ensures { Reads (p.function.read tokens.old) result tokens.new }
{
    tokens.expect(CalcKind::Function)?;
    let exp = exp(alloc, tokens, NESTING)?;
    tokens.expect(CalcKind::Semicolon)?;
    Ok(RawStatement::Function(exp))
}

#[tactic(auto, unfolding(crate::specs::Productions::statement, crate::specs::Productions::binding, crate::specs::Productions::show, spf_lex::specs::LookAhead::first, spf_lex::specs::LookAhead::nullable))]
fn statement(alloc: Global, tokens: &mut Cursor<CalcKind>) -> Result<RawStatement, ReadFault>
    ensures { Reads (p.statement.read tokens.old) result tokens.new }
{
    if tokens.sees_any(&[CalcKind::Let]) {
        binding(alloc, tokens)
    } else if tokens.sees_any(&[CalcKind::Show]) {
        show(alloc, tokens)
    } else {
        function(alloc, tokens)
    }
}

#[tactic(auto, unfolding(crate::specs::Productions::statement, crate::specs::Productions::binding, crate::specs::Productions::show, crate::specs::Productions::function, spf_lex::specs::LookAhead::first, spf_lex::specs::LookAhead::nullable))]
fn begins_statement(tokens: &Cursor<CalcKind>) -> bool
    ensures { result ≡ begins p.statement tokens.now }
{
    tokens.sees_any(&[CalcKind::Let, CalcKind::Show, CalcKind::Function])
}

impl Part<CalcKind> for RawStatement {
    ghost begins = { begins p.statement };

    ghost reading = { p.statement.read };

    fn begins(tokens: &Cursor<CalcKind>) -> bool {
        begins_statement(tokens)
    }

    fn parse(alloc: Global, tokens: &mut Cursor<CalcKind>) -> Result<RawStatement, ReadFault> {
        statement(alloc, tokens)
    }
}

#[tactic(auto, unfolding(crate::specs::Productions::calc))]
fn calc(alloc: Global, tokens: &mut Cursor<CalcKind>) -> Result<RawCalc, ReadFault>
    ensures { Reads (p.calc.read tokens.old) result tokens.new }
{
    tokens.expect(CalcKind::Calc)?;
    tokens.expect(CalcKind::One)?;
    let statements = repeated(alloc, tokens)?;
    Ok(RawCalc { statements })
}

#[tactic(auto, unfolding(crate::specs::Productions::calc, spf_lex::specs::LookAhead::first, spf_lex::specs::LookAhead::nullable))]
fn begins_calc(tokens: &Cursor<CalcKind>) -> bool
    ensures { result ≡ begins p.calc tokens.now }
{
    tokens.sees_any(&[CalcKind::Calc])
}

impl Part<CalcKind> for RawCalc {
    ghost begins = { begins p.calc };

    ghost reading = { p.calc.read };

    fn begins(tokens: &Cursor<CalcKind>) -> bool {
        begins_calc(tokens)
    }

    fn parse(alloc: Global, tokens: &mut Cursor<CalcKind>) -> Result<RawCalc, ReadFault> {
        calc(alloc, tokens)
    }
}

impl TextPart<CalcKind> for RawCalc {
    ghost use Rattle.spf_lex.specs.Suffix.{leaves_suffix};
    ghost use Rattle.spf_reltext.specs.CalcWords.{same_kind};
    ghost use Rattle.spf_calc.specs.Productions.{calc};

    ghost suffix = { leaves_suffix same_kind calc };
}
