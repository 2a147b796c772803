//! Why a text is refused as a kernel.

ghost use Rattle.std.specs.Prelude.{◌≡◌};

use spf_base::{NoMemory, Place};
use spf_lex::TextKind;
use thiserror::Error;

/// Why `parse` gave no kernel. A fault of syntax comes before a broken rule.
#[derive(Debug, Drop, Error)]
pub enum KernelFault {
    /// The token there, or the end, is the first that no kernel has there.
    #[error("syntax")]
    Syntax { place: Place, kind: TextKind },
    /// The token there breaks this rule; `next` is the number of the token behind the kernel, so that a caller can look
    /// at the rest of the syntax first.
    #[error("rule")]
    Rule { place: Place, rule: u32, next: u32 },
    /// Want of memory.
    #[error("memory")]
    Memory,
}

/// Why a raw tree is no kernel.
#[derive(Drop)]
pub enum Unkept {
    /// The token there breaks this rule.
    Rule { place: Place, rule: u32 },
    Memory,
}

impl From<NoMemory> for Unkept {
    ghost use Rattle.spf_kernel.specs.declared.fault.Unkept.TheVariants.{Memory};

    ghost from_gives = { λ _ fault. fault ≡ Memory };

    fn from(_error: NoMemory) -> Unkept {
        Unkept::Memory
    }
}
