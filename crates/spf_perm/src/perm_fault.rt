//! Why a list is no permutation.

use std::alloc::AllocError;
use thiserror::Error;

/// What stands in the way of a permutation, or want of memory.
#[derive(Debug, Drop, Error)]
pub enum PermFault {
    /// The entry at this place, the first such, isn't below the length.
    #[error("entry {place} is out of range")]
    OutOfRange { place: u32 },
    /// The entry at the second place, the least such, stands at the first already.
    #[error("entries {first} and {second} are equal")]
    NotPerm { first: u32, second: u32 },
    #[error("out of memory")]
    Memory,
}

impl From<AllocError> for PermFault {
    ghost use Rattle.std.specs.Prelude.{◌≡◌};
    ghost use Rattle.spf_perm.specs.declared.perm_fault.PermFault.TheVariants.{Memory};

    ghost from_gives = { λ _ fault. fault ≡ Memory };

    fn from(_error: AllocError) -> PermFault {
        PermFault::Memory
    }
}
