//! Why a text is refused as a bundle.

ghost use Rattle.std.specs.Prelude.{◌≡◌, Some};
ghost use Rattle.spf_base.specs.Word.{IsName};
ghost use Rattle.spf_input.specs.Rules.{spot};
ghost use Rattle.spf_input.specs.Tested.{IsRefused};

use spf_base::{Name, NoMemory, Place};
use spf_kernel::Unkept;
use spf_lex::{LexFault, PartFault, TextKind};
use std::alloc::Global;
use thiserror::Error;

/// The first fault of a text, in the order of the variants.
#[derive(Debug, Drop, Error)]
pub enum InputFault {
    /// No token stands there, or the token there, or the end, is the first that no bundle has there.
    #[error("text")]
    Text { place: Place, kind: TextKind },
    /// The token there breaks this rule of kernels.
    #[error("kernel")]
    Kernel { place: Place, rule: u32 },
    /// The number at that place of what is given for the name, or what is given for it, breaks this rule of the input.
    #[error("input")]
    Input { name: Name, place: u32, rule: u32 },
    #[error("out of memory")]
    Memory,
}

impl From<LexFault> for InputFault {
    ghost use Rattle.spf_input.specs.Answer.{no_token};

    ghost from_gives = { λ given fault. fault ≡ no_token given };

    fn from(fault: LexFault) -> InputFault {
        match fault {
            LexFault::NoToken { place } => InputFault::Text {
                place,
                kind: TextKind::Token,
            },
            LexFault::Memory => InputFault::Memory,
        }
    }
}

impl From<PartFault> for InputFault {
    ghost use Rattle.spf_input.specs.Answer.{no_part};

    ghost from_gives = { λ given fault. fault ≡ no_part given };

    fn from(fault: PartFault) -> InputFault {
        match fault {
            PartFault::Syntax { place, kind } => InputFault::Text { place, kind },
            PartFault::Memory => InputFault::Memory,
        }
    }
}

impl From<Unkept> for InputFault {
    ghost use Rattle.spf_input.specs.Answer.{unkept};

    ghost from_gives = { λ given fault. fault ≡ unkept given };

    fn from(fault: Unkept) -> InputFault {
        match fault {
            Unkept::Rule { place, rule } => InputFault::Kernel { place, rule },
            Unkept::Memory => InputFault::Memory,
        }
    }
}

impl From<NoMemory> for InputFault {
    ghost use Rattle.spf_input.specs.declared.fault.InputFault.TheVariants.{Memory};

    ghost from_gives = { λ _ fault. fault ≡ Memory };

    fn from(_error: NoMemory) -> InputFault {
        InputFault::Memory
    }
}

/// The refusal of a rule that is broken at a place of what is given for a name. Linear in the name.
pub(crate) fn refused(alloc: Global, name: &[u8], place: u32, rule: u32) -> InputFault
    requires { IsName name.now }
    ensures { IsRefused rule (Some (spot name.now place)) result }
{
    match Name::copy(alloc, name) {
        Ok(name) => InputFault::Input { name, place, rule },
        Err(NoMemory) => InputFault::Memory,
    }
}
