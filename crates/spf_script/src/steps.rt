//! Readers of scripts, one production at a time.

ghost use Rattle.std.specs.Prelude.{◌≡◌};
ghost use Rattle.spf_lex.specs.Production.{begins};
ghost use Rattle.spf_lex.specs.Reader.{Reads, Takes};
ghost use Rattle.spf_lex.specs.declared.kind.Kind.TheVariants as kind;
ghost use Rattle.spf_script.specs.Productions as p;
ghost use Rattle.spf_script.specs.declared.step.TextStep.TheVariants.{LexGroup, LexSort};

use crate::step::{TextSeed, TextStep};
use spf_base::Name;
use spf_lex::{Cursor, Kind, Part, ReadFault, TextPart, Unexpected, keyword, repeated, separated};
use sqlite_items::Items;
use std::alloc::Global;
use std::marker::Model;

#[tactic(auto, unfolding(crate::specs::Productions::number, spf_lex::specs::LookAhead::first))]
fn number(tokens: &mut Cursor<Kind>) -> Result<u64, Unexpected>
    ensures { Takes (p.number.read tokens.old) result tokens.new }
{
    let token = if tokens.sees_any(&[Kind::One]) {
        tokens.expect(Kind::One)?
    } else {
        tokens.expect(Kind::Number)?
    };
    Ok(token.value)
}

#[tactic(auto, unfolding(crate::specs::Productions::names, crate::specs::Productions::name))]
fn names(alloc: Global, tokens: &mut Cursor<Kind>) -> Result<Items<Name>, ReadFault>
    ensures { Reads (p.names.read tokens.old) result tokens.new }
{
    separated(alloc, tokens, Kind::Comma)
}

#[tactic(auto, unfolding(crate::specs::Productions::cpack, crate::specs::Productions::name))]
fn cpack(alloc: Global, tokens: &mut Cursor<Kind>) -> Result<TextStep, ReadFault>
    ensures { Reads (p.cpack.read tokens.old) result tokens.new }
{
    tokens.expect(Kind::Cpack)?;
    let arrays = names(alloc, tokens)?;
    tokens.expect(Kind::By)?;
    let by = tokens.name(alloc)?;
    tokens.expect(Kind::Semicolon)?;
    Ok(TextStep::Cpack { arrays, by })
}

#[tactic(auto, unfolding(crate::specs::Productions::order, crate::specs::Productions::name))]
fn lexgroup(alloc: Global, tokens: &mut Cursor<Kind>) -> Result<TextStep, ReadFault>
    ensures { Reads ((p.order kind.Lexgroup LexGroup).read tokens.old) result tokens.new }
{
    tokens.expect(Kind::Lexgroup)?;
    let of = tokens.name(alloc)?;
    tokens.expect(Kind::By)?;
    let by = tokens.name(alloc)?;
    tokens.expect(Kind::Semicolon)?;
    Ok(TextStep::LexGroup { of, by })
}

#[tactic(auto, unfolding(crate::specs::Productions::order, crate::specs::Productions::name))]
fn lexsort(alloc: Global, tokens: &mut Cursor<Kind>) -> Result<TextStep, ReadFault>
    ensures { Reads ((p.order kind.Lexsort LexSort).read tokens.old) result tokens.new }
{
    tokens.expect(Kind::Lexsort)?;
    let of = tokens.name(alloc)?;
    tokens.expect(Kind::By)?;
    let by = tokens.name(alloc)?;
    tokens.expect(Kind::Semicolon)?;
    Ok(TextStep::LexSort { of, by })
}

#[tactic(auto, unfolding(crate::specs::Productions::bucket, crate::specs::Productions::name))]
fn bucket(alloc: Global, tokens: &mut Cursor<Kind>) -> Result<TextStep, ReadFault>
    ensures { Reads (p.bucket.read tokens.old) result tokens.new }
{
    tokens.expect(Kind::Bucket)?;
    let of = tokens.name(alloc)?;
    tokens.expect(Kind::By)?;
    let by = tokens.name(alloc)?;
    tokens.expect(Kind::Size)?;
    let size = number(tokens)?;
    tokens.expect(Kind::Semicolon)?;
    Ok(TextStep::Bucket { of, by, size })
}

#[tactic(auto, unfolding(crate::specs::Productions::seed, spf_lex::specs::LookAhead::first))]
fn seed(tokens: &mut Cursor<Kind>) -> Result<TextSeed, Unexpected>
    ensures { Takes (p.seed.read tokens.old) result tokens.new }
{
    if tokens.sees_any(&[Kind::Block, Kind::Spread]) {
        let seeds = [
            (Kind::Block, TextSeed::Block),
            (Kind::Spread, TextSeed::Spread),
        ];
        return keyword(tokens, &seeds);
    }
    tokens.expect(Kind::Plug)?;
    Ok(TextSeed::Plug(number(tokens)?))
}

#[tactic(auto, unfolding(crate::specs::Productions::tile, crate::specs::Productions::name))]
fn tile(alloc: Global, tokens: &mut Cursor<Kind>) -> Result<TextStep, ReadFault>
    ensures { Reads (p.tile.read tokens.old) result tokens.new }
{
    tokens.expect(Kind::Tile)?;
    let of = tokens.name(alloc)?;
    tokens.expect(Kind::At)?;
    let step = number(tokens)?;
    tokens.expect(Kind::Seed)?;
    let seed = seed(tokens)?;
    let parts = number(tokens)?;
    tokens.expect(Kind::Semicolon)?;
    Ok(TextStep::Tile {
        of,
        step,
        seed,
        parts,
    })
}

#[tactic(auto, unfolding(crate::specs::Productions::tilepack))]
fn tilepack(alloc: Global, tokens: &mut Cursor<Kind>) -> Result<TextStep, ReadFault>
    ensures { Reads (p.tilepack.read tokens.old) result tokens.new }
{
    tokens.expect(Kind::Tilepack)?;
    let arrays = names(alloc, tokens)?;
    tokens.expect(Kind::Semicolon)?;
    Ok(TextStep::TilePack { arrays })
}

#[tactic(auto, unfolding(crate::specs::Productions::step, crate::specs::Productions::cpack, crate::specs::Productions::order, crate::specs::Productions::bucket, crate::specs::Productions::tile, spf_lex::specs::LookAhead::first, spf_lex::specs::LookAhead::nullable))]
fn step(alloc: Global, tokens: &mut Cursor<Kind>) -> Result<TextStep, ReadFault>
    ensures { Reads (p.step.read tokens.old) result tokens.new }
{
    if tokens.sees_any(&[Kind::Cpack]) {
        cpack(alloc, tokens)
    } else if tokens.sees_any(&[Kind::Lexgroup]) {
        lexgroup(alloc, tokens)
    } else if tokens.sees_any(&[Kind::Lexsort]) {
        lexsort(alloc, tokens)
    } else if tokens.sees_any(&[Kind::Bucket]) {
        bucket(alloc, tokens)
    } else if tokens.sees_any(&[Kind::Tile]) {
        tile(alloc, tokens)
    } else {
        tilepack(alloc, tokens)
    }
}

#[tactic(auto, unfolding(crate::specs::Productions::step, crate::specs::Productions::cpack, crate::specs::Productions::order, crate::specs::Productions::bucket, crate::specs::Productions::tile, crate::specs::Productions::tilepack, spf_lex::specs::LookAhead::first, spf_lex::specs::LookAhead::nullable))]
fn begins_step(tokens: &Cursor<Kind>) -> bool
    ensures { result ≡ begins p.step tokens.now }
{
    tokens.sees_any(&[
        Kind::Cpack,
        Kind::Lexgroup,
        Kind::Lexsort,
        Kind::Bucket,
        Kind::Tile,
        Kind::Tilepack,
    ])
}

impl Part<Kind> for TextStep {
    ghost begins = { begins p.step };

    ghost reading = { p.step.read };

    fn begins(tokens: &Cursor<Kind>) -> bool {
        begins_step(tokens)
    }

    fn parse(alloc: Global, tokens: &mut Cursor<Kind>) -> Result<TextStep, ReadFault> {
        step(alloc, tokens)
    }
}

/// The steps of a script as they are read.
#[derive(Drop)]
pub struct Steps {
    steps: Items<TextStep>,
}

impl Model for Steps {
    ghost use Rattle.std.specs.Prelude.{List};
    ghost use Rattle.spf_script.specs.declared.step.TextStep.{TextStep};

    ghost Value = { List TextStep };

    ghost view = { λ steps. steps.steps };
}

impl Steps {
    pub(crate) fn into_items(self) -> Items<TextStep>
        ensures { result ≡ self }
    {
        self.steps
    }
}

#[tactic(auto, unfolding(crate::specs::Productions::script))]
fn script(alloc: Global, tokens: &mut Cursor<Kind>) -> Result<Steps, ReadFault>
    ensures { Reads (p.script.read tokens.old) result tokens.new }
{
    tokens.expect(Kind::Script)?;
    tokens.expect(Kind::OpenBrace)?;
    let steps = repeated(alloc, tokens)?;
    tokens.expect(Kind::CloseBrace)?;
    Ok(Steps { steps })
}

#[tactic(auto, unfolding(crate::specs::Productions::script, spf_lex::specs::LookAhead::first, spf_lex::specs::LookAhead::nullable))]
fn begins_script(tokens: &Cursor<Kind>) -> bool
    ensures { result ≡ begins p.script tokens.now }
{
    tokens.sees_any(&[Kind::Script])
}

impl Part<Kind> for Steps {
    ghost begins = { begins p.script };

    ghost reading = { p.script.read };

    fn begins(tokens: &Cursor<Kind>) -> bool {
        begins_script(tokens)
    }

    fn parse(alloc: Global, tokens: &mut Cursor<Kind>) -> Result<Steps, ReadFault> {
        script(alloc, tokens)
    }
}

impl TextPart<Kind> for Steps {
    ghost use Rattle.spf_lex.specs.BundleWords.{same_kind};
    ghost use Rattle.spf_lex.specs.Suffix.{leaves_suffix};
    ghost use Rattle.spf_script.specs.Productions.{script};

    ghost suffix = { leaves_suffix same_kind script };
}
