//! Why a term is refused.

ghost use Rattle.std.specs.Prelude.{◌≡◌};

use spf_base::NoMemory;
use std::alloc::{AllocError, AllocFailed};
use thiserror::Error;

/// Why a call gave no term.
#[derive(Debug, Drop, Error)]
pub enum TermFault {
    /// The number rule is passed: there are this many monomials, or this is a coefficient or constant.
    #[error("wide")]
    Wide { count: i128 },
    /// Want of memory.
    #[error("memory")]
    Memory,
}

impl From<NoMemory> for TermFault {
    ghost use Rattle.spf_term.specs.declared.fault.TermFault.TheVariants.{Memory};

    ghost from_gives = { λ _ fault. fault ≡ Memory };

    fn from(_error: NoMemory) -> TermFault {
        TermFault::Memory
    }
}

impl From<AllocError> for TermFault {
    ghost use Rattle.spf_term.specs.declared.fault.TermFault.TheVariants.{Memory};

    ghost from_gives = { λ _ fault. fault ≡ Memory };

    fn from(_error: AllocError) -> TermFault {
        TermFault::Memory
    }
}

impl<T: Drop> From<AllocFailed<T>> for TermFault {
    ghost use Rattle.spf_term.specs.declared.fault.TermFault.TheVariants.{Memory};

    ghost from_gives = { λ _ fault. fault ≡ Memory };

    fn from(_error: AllocFailed<T>) -> TermFault {
        TermFault::Memory
    }
}
