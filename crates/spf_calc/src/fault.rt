//! Why a calculator text has no results.

ghost use Rattle.std.specs.Prelude.{◌≡◌};

use spf_base::{NoMemory, Place};
use spf_lex::{LexFault, PartFault, TextKind};
use thiserror::Error;

/// The first fault of a text.
#[derive(Debug, Drop, Error)]
pub enum CalcFault {
    /// No token stands there, or the token there, or the end, is the first that no calculator text has there.
    #[error("text")]
    Text { place: Place, kind: TextKind },
    /// The statement with this number, from 1, breaks this rule and no lesser one.
    #[error("statement {statement} breaks rule {rule}")]
    Rule { statement: u32, rule: u32 },
    #[error("out of memory")]
    Memory,
}

impl From<LexFault> for CalcFault {
    ghost use Rattle.spf_calc.specs.Answer.{no_token};

    ghost from_gives = { λ given fault. fault ≡ no_token given };

    fn from(fault: LexFault) -> CalcFault {
        match fault {
            LexFault::NoToken { place } => CalcFault::Text {
                place,
                kind: TextKind::Token,
            },
            LexFault::Memory => CalcFault::Memory,
        }
    }
}

impl From<PartFault> for CalcFault {
    ghost use Rattle.spf_calc.specs.Answer.{no_part};

    ghost from_gives = { λ given fault. fault ≡ no_part given };

    fn from(fault: PartFault) -> CalcFault {
        match fault {
            PartFault::Syntax { place, kind } => CalcFault::Text { place, kind },
            PartFault::Memory => CalcFault::Memory,
        }
    }
}

impl From<NoMemory> for CalcFault {
    ghost use Rattle.spf_calc.specs.declared.fault.CalcFault.TheVariants.{Memory};

    ghost from_gives = { λ _ fault. fault ≡ Memory };

    fn from(_error: NoMemory) -> CalcFault {
        CalcFault::Memory
    }
}
