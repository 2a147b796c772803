//! A whole bundle as it is read: the kernel, the script and the input.

ghost use Rattle.std.specs.Prelude.{◌≡◌};
ghost use Rattle.spf_lex.specs.Production.{begins};
ghost use Rattle.spf_lex.specs.Reader.{Reads};
ghost use Rattle.spf_input.specs.Productions as p;

use crate::entries::{RawInput, input};
use spf_kernel::raw::RawKernel;
use spf_lex::{Cursor, Kind, Part, ReadFault, TextPart};
use spf_script::Steps;
use std::alloc::Global;

/// The three parts of a bundle.
#[derive(Drop)]
pub struct RawBundle {
    pub kernel: RawKernel,
    pub script: Steps,
    pub input: RawInput,
}

#[tactic(auto, unfolding(crate::specs::Productions::bundle))]
fn bundle(alloc: Global, tokens: &mut Cursor<Kind>) -> Result<RawBundle, ReadFault>
    ensures { Reads (p.bundle.read tokens.old) result tokens.new }
{
    tokens.expect(Kind::Spf)?;
    tokens.expect(Kind::One)?;
    let kernel = RawKernel::read(alloc, tokens)?;
    let script = Steps::read(alloc, tokens)?;
    let input = input(alloc, tokens)?;
    Ok(RawBundle {
        kernel,
        script,
        input,
    })
}

#[tactic(auto, unfolding(crate::specs::Productions::bundle, spf_lex::specs::LookAhead::first, spf_lex::specs::LookAhead::nullable))]
fn begins_bundle(tokens: &Cursor<Kind>) -> bool
    ensures { result ≡ begins p.bundle tokens.now }
{
    tokens.sees_any(&[Kind::Spf])
}

impl Part<Kind> for RawBundle {
    ghost begins = { begins p.bundle };

    ghost reading = { p.bundle.read };

    fn begins(tokens: &Cursor<Kind>) -> bool {
        begins_bundle(tokens)
    }

    fn parse(alloc: Global, tokens: &mut Cursor<Kind>) -> Result<RawBundle, ReadFault> {
        bundle(alloc, tokens)
    }
}

impl TextPart<Kind> for RawBundle {
    ghost use Rattle.spf_lex.specs.BundleWords.{same_kind};
    ghost use Rattle.spf_lex.specs.Suffix.{leaves_suffix};

    ghost suffix = { leaves_suffix same_kind p.bundle };
}
