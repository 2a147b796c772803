//! Readers of index expressions, with brackets so many deep.

ghost use Rattle.std.specs.Prelude.{ℕ, ◌≡◌, ◌<◌, ◌-◌, ◌++◌};
ghost use Rattle.spf_lex.specs.Derivation.{made};
ghost use Rattle.spf_lex.specs.Production.{begins, between};
ghost use Rattle.spf_lex.specs.Reader.{Reads, Takes, repeat};
ghost use Rattle.spf_reltext.specs.Productions as p;
ghost use Rattle.spf_reltext.specs.declared.kind.CalcKind.TheVariants as kind;

use crate::kind::CalcKind;
use crate::raw::{Product, RawAtom, RawIx, RawMono};
use spf_lex::{Cursor, ReadFault, Unexpected, keyword};
use sqlite_items::Items;
use std::alloc::Global;

/// Greatest nesting depth of brackets.
pub const BRACKETS: u32 = 5;

#[tactic(auto, unfolding(crate::specs::Productions::number, spf_lex::specs::LookAhead::first))]
fn number(tokens: &mut Cursor<CalcKind>) -> Result<u64, Unexpected>
    ensures { Takes (p.number.read tokens.old) result tokens.new }
{
    let token = if tokens.sees_any(&[CalcKind::One]) {
        tokens.expect(CalcKind::One)?
    } else {
        tokens.expect(CalcKind::Number)?
    };
    Ok(token.value)
}

/// A number, and an atom behind `*`, where one stands.
#[cycle(ix)]
#[tactic(auto, unfolding(crate::specs::Productions::numbered, spf_lex::specs::LookAhead::first, spf_lex::specs::LookAhead::nullable))]
fn numbered(alloc: Global, tokens: &mut Cursor<CalcKind>, depth: u32) -> Result<Product, ReadFault>
    ensures { Reads ((p.numbered (p.atom depth)).read tokens.old) result tokens.new }
{
    let number = number(tokens)?;
    if !tokens.sees_any(&[CalcKind::Star]) {
        let atom = RawAtom::Unit;
        return Ok(Product { number, atom });
    }
    tokens.expect(CalcKind::Star)?;
    let atom = atom(alloc, tokens, depth)?;
    Ok(Product { number, atom })
}

#[cycle(ix)]
#[tactic(auto, unfolding(crate::specs::Productions::mono, crate::specs::Productions::numbered, crate::specs::Productions::number, spf_lex::specs::LookAhead::first, spf_lex::specs::LookAhead::nullable))]
fn mono(alloc: Global, tokens: &mut Cursor<CalcKind>, depth: u32) -> Result<Product, ReadFault>
    ensures { Reads ((p.mono (p.atom depth)).read tokens.old) result tokens.new }
{
    if !tokens.sees_any(&[CalcKind::One, CalcKind::Number]) {
        let atom = atom(alloc, tokens, depth)?;
        return Ok(Product { number: 1, atom });
    }
    numbered(alloc, tokens, depth)
}

/// The monomial with this sign.
fn signed(minus: bool, product: Product) -> RawMono
    ensures { result ≡ p.signed minus product }
{
    RawMono {
        minus,
        number: product.number,
        atom: product.atom,
    }
}

#[cycle(ix)]
#[tactic(auto, unfolding(crate::specs::Productions::first_mono))]
fn first_mono(
    alloc: Global,
    tokens: &mut Cursor<CalcKind>,
    depth: u32,
) -> Result<RawMono, ReadFault>
    ensures { Reads ((p.first_mono (p.atom depth)).read tokens.old) result tokens.new }
{
    let minus = tokens.eat(CalcKind::Minus);
    let product = mono(alloc, tokens, depth)?;
    Ok(signed(minus, product))
}

#[cycle(ix)]
#[tactic(auto, unfolding(crate::specs::Productions::next_mono))]
fn next_mono(alloc: Global, tokens: &mut Cursor<CalcKind>, depth: u32) -> Result<RawMono, ReadFault>
    ensures { Reads ((p.next_mono (p.atom depth)).read tokens.old) result tokens.new }
{
    let minus = keyword(tokens, &[(CalcKind::Plus, false), (CalcKind::Minus, true)])?;
    let product = mono(alloc, tokens, depth)?;
    Ok(signed(minus, product))
}

/// Whether a sign begins, and with it a further monomial.
#[tactic(auto, unfolding(crate::specs::Productions::next_mono, spf_lex::specs::LookAhead::first, spf_lex::specs::LookAhead::nullable))]
fn begins_sign(tokens: &Cursor<CalcKind>) -> bool
    ensures { (depth : ℕ) → result ≡ begins (p.next_mono (p.atom depth)) tokens.now }
{
    tokens.sees_any(&[CalcKind::Plus, CalcKind::Minus])
}

/// Reads further monomials onto a list.
#[cycle(ix)]
fn next_monos(
    alloc: Global,
    tokens: &mut Cursor<CalcKind>,
    depth: u32,
    mut monos: Items<RawMono>,
) -> Result<Items<RawMono>, ReadFault>
    ensures { Reads (made (λ others. monos ++ others) (repeat (begins (p.next_mono (p.atom depth))) (p.next_mono (p.atom depth)).read tokens.old)) result tokens.new }
{
    for _turn in 0..tokens.left() {
        if !begins_sign(tokens) {
            return Ok(monos);
        }
        let next = next_mono(alloc, tokens, depth)?;
        monos.push(next)?;
    }
    Ok(monos)
}

/// An index expression. Linear in its tokens.
#[cycle(ix)]
#[tactic(auto, unfolding(crate::specs::Productions::sum, crate::specs::Productions::ix))]
pub(crate) fn ix(
    alloc: Global,
    tokens: &mut Cursor<CalcKind>,
    depth: u32,
) -> Result<RawIx, ReadFault>
    ensures { Reads ((p.ix depth).read tokens.old) result tokens.new }
{
    let first = first_mono(alloc, tokens, depth)?;
    let mut monos = Items::new(alloc);
    monos.push(first)?;
    let monos = next_monos(alloc, tokens, depth, monos)?;
    Ok(RawIx { monos })
}

/// An index expression in brackets.
#[cycle(ix)]
fn bracketed(alloc: Global, tokens: &mut Cursor<CalcKind>, depth: u32) -> Result<RawIx, ReadFault>
    ensures { Reads ((between kind.OpenBracket kind.CloseBracket (p.ix depth)).read tokens.old) result tokens.new }
{
    tokens.expect(CalcKind::OpenBracket)?;
    let at = ix(alloc, tokens, depth)?;
    tokens.expect(CalcKind::CloseBracket)?;
    Ok(at)
}

/// A name, and an index expression in brackets behind it, where one stands.
#[cycle(ix)]
#[tactic(auto, unfolding(crate::specs::Productions::subscripted, crate::specs::Productions::name, spf_lex::specs::LookAhead::first, spf_lex::specs::LookAhead::nullable))]
fn subscripted(
    alloc: Global,
    tokens: &mut Cursor<CalcKind>,
    depth: u32,
) -> Result<RawAtom, ReadFault>
    ensures { Reads ((p.subscripted (p.ix depth)).read tokens.old) result tokens.new }
{
    let name = tokens.name(alloc)?;
    if !tokens.sees_any(&[CalcKind::OpenBracket]) {
        return Ok(RawAtom::Plain(name));
    }
    let at = bracketed(alloc, tokens, depth)?;
    Ok(RawAtom::Entry { name, at })
}

/// A name, with an index expression in brackets where they may still stand, or without.
#[cycle(ix)]
#[tactic(auto, unfolding(crate::specs::Productions::atom, crate::specs::Productions::name))]
fn atom(alloc: Global, tokens: &mut Cursor<CalcKind>, depth: u32) -> Result<RawAtom, ReadFault>
    ensures { Reads ((p.atom depth).read tokens.old) result tokens.new }
{
    if depth > 0 {
        return subscripted(alloc, tokens, depth - 1);
    }
    Ok(RawAtom::Plain(tokens.name(alloc)?))
}
