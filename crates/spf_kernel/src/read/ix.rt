//! Readers of index expressions, with brackets so many deep.

ghost use Rattle.std.specs.Prelude.{ℕ, ◌≡◌, ◌<◌, ◌-◌, [], ◌∷◌, ◌++◌, IfOk};
ghost use Rattle.spf_lex.specs.BundleWords.{same_kind};
ghost use Rattle.spf_lex.specs.Derivation.{made};
ghost use Rattle.spf_lex.specs.Production.{begins, between, optional, token};
ghost use Rattle.spf_lex.specs.Reader.{Reads, Takes, repeat};
ghost use Rattle.spf_lex.specs.declared.kind.Kind.TheVariants as kind;
ghost use Rattle.spf_kernel.specs.Productions as p;

use crate::raw::{RawAtom, RawIx, RawMono, RawStep};
use spf_lex::{Cursor, Kind, ReadFault, Token, Unexpected};
use sqlite_items::{Boxed, Items};
use std::alloc::{AllocError, Global};

/// Greatest nesting depth of brackets.
pub const BRACKETS: u32 = 5;

#[tactic(auto, unfolding(crate::specs::Productions::number, spf_lex::specs::LookAhead::first))]
pub fn number(tokens: &mut Cursor<Kind>) -> Result<Token, Unexpected>
    ensures { Takes (p.number.read tokens.old) result tokens.new }
{
    if tokens.sees_any(&[Kind::One]) {
        tokens.expect(Kind::One)
    } else {
        tokens.expect(Kind::Number)
    }
}

/// The `-` that may stand in front of a sum.
#[tactic(auto, unfolding(spf_lex::specs::LookAhead::first))]
fn leading_minus(tokens: &mut Cursor<Kind>) -> Result<Option<Token>, Unexpected>
    ensures { Takes ((optional (token {same = same_kind} kind.Minus)).read tokens.old) result tokens.new }
{
    if !tokens.sees_any(&[Kind::Minus]) {
        return Ok(None);
    }
    Ok(Some(tokens.expect(Kind::Minus)?))
}

/// A sign, and the token of a `-`.
#[tactic(auto, unfolding(crate::specs::Productions::sign, spf_lex::specs::LookAhead::first))]
fn sign(tokens: &mut Cursor<Kind>) -> Result<Option<Token>, Unexpected>
    ensures { Takes (p.sign.read tokens.old) result tokens.new }
{
    if tokens.sees_any(&[Kind::Plus]) {
        tokens.expect(Kind::Plus)?;
        return Ok(None);
    }
    Ok(Some(tokens.expect(Kind::Minus)?))
}

/// A number, and an atom behind `*`, where one stands.
#[cycle(ix)]
#[tactic(auto, unfolding(crate::specs::Productions::numbered, spf_lex::specs::LookAhead::first, spf_lex::specs::LookAhead::nullable))]
fn numbered(alloc: Global, tokens: &mut Cursor<Kind>, depth: u32) -> Result<RawMono, ReadFault>
    ensures { Reads ((p.numbered (p.atom depth)).read tokens.old) result tokens.new }
{
    let number = number(tokens)?;
    if !tokens.sees_any(&[Kind::Star]) {
        return Ok(RawMono::Number(number, None));
    }
    tokens.expect(Kind::Star)?;
    let atom = atom(alloc, tokens, depth)?;
    Ok(RawMono::Number(number, Some(atom)))
}

#[cycle(ix)]
#[tactic(auto, unfolding(crate::specs::Productions::mono, crate::specs::Productions::numbered, crate::specs::Productions::number, spf_lex::specs::LookAhead::first, spf_lex::specs::LookAhead::nullable))]
fn mono(alloc: Global, tokens: &mut Cursor<Kind>, depth: u32) -> Result<RawMono, ReadFault>
    ensures { Reads ((p.mono (p.atom depth)).read tokens.old) result tokens.new }
{
    if !tokens.sees_any(&[Kind::One, Kind::Number]) {
        return Ok(RawMono::Atom(atom(alloc, tokens, depth)?));
    }
    numbered(alloc, tokens, depth)
}

#[cycle(ix)]
#[tactic(auto, unfolding(crate::specs::Productions::first_step))]
fn first_step(alloc: Global, tokens: &mut Cursor<Kind>, depth: u32) -> Result<RawStep, ReadFault>
    ensures { Reads ((p.first_step (p.atom depth)).read tokens.old) result tokens.new }
{
    let minus = leading_minus(tokens)?;
    let mono = mono(alloc, tokens, depth)?;
    Ok(RawStep { minus, mono })
}

#[cycle(ix)]
#[tactic(auto, unfolding(crate::specs::Productions::next_step))]
fn next_step(alloc: Global, tokens: &mut Cursor<Kind>, depth: u32) -> Result<RawStep, ReadFault>
    ensures { Reads ((p.next_step (p.atom depth)).read tokens.old) result tokens.new }
{
    let minus = sign(tokens)?;
    let mono = mono(alloc, tokens, depth)?;
    Ok(RawStep { minus, mono })
}

/// Whether a sign begins, and with it a further monomial or product.
#[tactic(auto, unfolding(crate::specs::Productions::next_step, crate::specs::Productions::sign, crate::specs::Productions::next_summand, spf_lex::specs::LookAhead::first, spf_lex::specs::LookAhead::nullable))]
pub fn begins_sign(tokens: &Cursor<Kind>) -> bool
    ensures monomial { (depth : ℕ) → result ≡ begins (p.next_step (p.atom depth)) tokens.now }
    ensures product { (depth : ℕ) → result ≡ begins (p.next_summand (p.fact depth)) tokens.now }
{
    tokens.sees_any(&[Kind::Plus, Kind::Minus])
}

/// Reads further monomials onto a list.
#[cycle(ix)]
fn next_steps(
    alloc: Global,
    tokens: &mut Cursor<Kind>,
    depth: u32,
    mut steps: Items<RawStep>,
) -> Result<Items<RawStep>, ReadFault>
    ensures { Reads (made (λ others. steps ++ others) (repeat (begins (p.next_step (p.atom depth))) (p.next_step (p.atom depth)).read tokens.old)) result tokens.new }
{
    for _turn in 0..tokens.left() {
        if !begins_sign(tokens) {
            return Ok(steps);
        }
        let step = next_step(alloc, tokens, depth)?;
        steps.push(step)?;
    }
    Ok(steps)
}

/// A list of one part, with room for no more.
pub fn alone<T: Drop>(alloc: Global, part: T) -> Result<Items<T>, AllocError>
    ensures { IfOk result (λ parts. parts ≡ part ∷ []) }
{
    let mut parts = Vec::with_capacity(alloc, 1)?;
    parts.push(part)?;
    Ok(Items::from_vec(parts))
}

/// An index expression. Linear in its tokens.
#[cycle(ix)]
#[tactic(auto, unfolding(crate::specs::Productions::sum, crate::specs::Productions::ix))]
pub fn ix(alloc: Global, tokens: &mut Cursor<Kind>, depth: u32) -> Result<RawIx, ReadFault>
    ensures { Reads ((p.ix depth).read tokens.old) result tokens.new }
{
    let first = first_step(alloc, tokens, depth)?;
    let steps = next_steps(alloc, tokens, depth, alone(alloc, first)?)?;
    Ok(RawIx { steps })
}

/// An index expression in brackets.
#[cycle(ix)]
fn bracketed(alloc: Global, tokens: &mut Cursor<Kind>, depth: u32) -> Result<RawIx, ReadFault>
    ensures { Reads ((between kind.OpenBracket kind.CloseBracket (p.ix depth)).read tokens.old) result tokens.new }
{
    tokens.expect(Kind::OpenBracket)?;
    let at = ix(alloc, tokens, depth)?;
    tokens.expect(Kind::CloseBracket)?;
    Ok(at)
}

/// A name, and an index expression in brackets behind it, where one stands.
#[cycle(ix)]
#[tactic(auto, unfolding(crate::specs::Productions::subscripted, spf_lex::specs::LookAhead::first, spf_lex::specs::LookAhead::nullable))]
fn subscripted(alloc: Global, tokens: &mut Cursor<Kind>, depth: u32) -> Result<RawAtom, ReadFault>
    ensures { Reads ((p.subscripted (p.ix depth)).read tokens.old) result tokens.new }
{
    let name = tokens.expect(Kind::Name)?;
    if !tokens.sees_any(&[Kind::OpenBracket]) {
        return Ok(RawAtom { name, at: None });
    }
    let at = bracketed(alloc, tokens, depth)?;
    let at = Some(Boxed::new(alloc, at)?);
    Ok(RawAtom { name, at })
}

/// A name, with an index expression in brackets where they may still stand, or without.
#[cycle(ix)]
#[tactic(auto, unfolding(crate::specs::Productions::atom))]
pub fn atom(alloc: Global, tokens: &mut Cursor<Kind>, depth: u32) -> Result<RawAtom, ReadFault>
    ensures { Reads ((p.atom depth).read tokens.old) result tokens.new }
{
    if depth > 0 {
        return subscripted(alloc, tokens, depth - 1);
    }
    let name = tokens.expect(Kind::Name)?;
    Ok(RawAtom { name, at: None })
}

/// An index expression in the outermost brackets. Linear in its tokens.
#[tactic(auto, unfolding(crate::specs::Productions::in_brackets))]
pub fn in_brackets(alloc: Global, tokens: &mut Cursor<Kind>) -> Result<RawIx, ReadFault>
    ensures { Reads (p.in_brackets.read tokens.old) result tokens.new }
{
    bracketed(alloc, tokens, BRACKETS - 1)
}
