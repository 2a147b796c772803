//! Readers of declarations and of the whole kernel.

ghost use Rattle.std.specs.Prelude.{◌≡◌};
ghost use Rattle.spf_lex.specs.Production.{begins};
ghost use Rattle.spf_lex.specs.Reader.{Reads, Takes};
ghost use Rattle.spf_kernel.specs.Productions as p;

use crate::raw::{RawDecl, RawKernel, RawSized};
use crate::read::ix::{BRACKETS, in_brackets, ix};
use crate::tree::Trend;
use spf_lex::{Cursor, Kind, Part, ReadFault, TextPart, Unexpected, keyword, repeated, separated};
use std::alloc::Global;

#[tactic(auto, unfolding(crate::specs::Productions::params))]
fn params(alloc: Global, tokens: &mut Cursor<Kind>) -> Result<RawDecl, ReadFault>
    ensures { Reads (p.params.read tokens.old) result tokens.new }
{
    tokens.expect(Kind::Param)?;
    let names = separated(alloc, tokens, Kind::Comma)?;
    tokens.expect(Kind::Semicolon)?;
    Ok(RawDecl::Params(names))
}

impl Part<Kind> for RawSized {
    ghost begins = { begins p.sized };

    ghost reading = { p.sized.read };

    #[tactic(auto, unfolding(crate::specs::Productions::sized, spf_lex::specs::LookAhead::first, spf_lex::specs::LookAhead::nullable))]
    fn begins(tokens: &Cursor<Kind>) -> bool {
        tokens.sees_any(&[Kind::Name])
    }

    #[tactic(auto, unfolding(crate::specs::Productions::sized))]
    fn parse(alloc: Global, tokens: &mut Cursor<Kind>) -> Result<RawSized, ReadFault> {
        let name = tokens.expect(Kind::Name)?;
        let size = in_brackets(alloc, tokens)?;
        Ok(RawSized { name, size })
    }
}

#[tactic(auto, unfolding(crate::specs::Productions::trend, spf_lex::specs::LookAhead::first))]
fn trend(tokens: &mut Cursor<Kind>) -> Result<Trend, Unexpected>
    ensures { Takes (p.trend.read tokens.old) result tokens.new }
{
    if tokens.sees_any(&[Kind::Monotone, Kind::Strict]) {
        let trends = [
            (Kind::Monotone, Trend::Monotone),
            (Kind::Strict, Trend::Strict),
        ];
        keyword(tokens, &trends)
    } else {
        Ok(Trend::Free)
    }
}

#[tactic(auto, unfolding(crate::specs::Productions::index))]
fn index(alloc: Global, tokens: &mut Cursor<Kind>) -> Result<RawDecl, ReadFault>
    ensures { Reads (p.index.read tokens.old) result tokens.new }
{
    tokens.expect(Kind::Index)?;
    let array = RawSized::read(alloc, tokens)?;
    tokens.expect(Kind::In)?;
    let low = ix(alloc, tokens, BRACKETS)?;
    tokens.expect(Kind::Range)?;
    let high = ix(alloc, tokens, BRACKETS)?;
    let trend = trend(tokens)?;
    tokens.expect(Kind::Semicolon)?;
    Ok(RawDecl::Index {
        array,
        low,
        high,
        trend,
    })
}

#[tactic(auto, unfolding(crate::specs::Productions::values))]
fn values(alloc: Global, tokens: &mut Cursor<Kind>) -> Result<RawDecl, ReadFault>
    ensures { Reads (p.values.read tokens.old) result tokens.new }
{
    tokens.expect(Kind::Data)?;
    let arrays = separated(alloc, tokens, Kind::Comma)?;
    tokens.expect(Kind::Semicolon)?;
    Ok(RawDecl::Values(arrays))
}

impl Part<Kind> for RawDecl {
    ghost begins = { begins p.decl };

    ghost reading = { p.decl.read };

    #[tactic(auto, unfolding(crate::specs::Productions::decl, crate::specs::Productions::params, crate::specs::Productions::index, crate::specs::Productions::values, spf_lex::specs::LookAhead::first, spf_lex::specs::LookAhead::nullable))]
    fn begins(tokens: &Cursor<Kind>) -> bool {
        tokens.sees_any(&[Kind::Param, Kind::Index, Kind::Data])
    }

    #[tactic(auto, unfolding(crate::specs::Productions::decl, crate::specs::Productions::params, crate::specs::Productions::index, spf_lex::specs::LookAhead::first, spf_lex::specs::LookAhead::nullable))]
    fn parse(alloc: Global, tokens: &mut Cursor<Kind>) -> Result<RawDecl, ReadFault> {
        if tokens.sees_any(&[Kind::Param]) {
            params(alloc, tokens)
        } else if tokens.sees_any(&[Kind::Index]) {
            index(alloc, tokens)
        } else {
            values(alloc, tokens)
        }
    }
}

impl Part<Kind> for RawKernel {
    ghost begins = { begins p.kernel };

    ghost reading = { p.kernel.read };

    #[tactic(auto, unfolding(crate::specs::Productions::kernel, spf_lex::specs::LookAhead::first, spf_lex::specs::LookAhead::nullable))]
    fn begins(tokens: &Cursor<Kind>) -> bool {
        tokens.sees_any(&[Kind::Kernel])
    }

    /// A kernel. Linear in its tokens.
    #[tactic(auto, unfolding(crate::specs::Productions::kernel))]
    fn parse(alloc: Global, tokens: &mut Cursor<Kind>) -> Result<RawKernel, ReadFault> {
        tokens.expect(Kind::Kernel)?;
        tokens.expect(Kind::OpenBrace)?;
        let decls = repeated(alloc, tokens)?;
        tokens.expect(Kind::Steps)?;
        let steps = ix(alloc, tokens, BRACKETS)?;
        tokens.expect(Kind::Semicolon)?;
        let loops = repeated(alloc, tokens)?;
        tokens.expect(Kind::CloseBrace)?;
        Ok(RawKernel {
            decls,
            steps,
            loops,
        })
    }
}

impl TextPart<Kind> for RawKernel {
    ghost use Rattle.spf_lex.specs.BundleWords.{same_kind};
    ghost use Rattle.spf_lex.specs.Suffix.{leaves_suffix};

    ghost suffix = { leaves_suffix same_kind p.kernel };
}
