//! Why no numbers grow from a seed.

use spf_base::NoMemory;
use thiserror::Error;

/// The first two seed units along which the seed falls, by their ordinals, or want of memory.
#[derive(Debug, Drop, Error)]
pub enum GrowFault {
    /// The units conflict, and the later one has the lesser number: of all such pairs the one with the least second and then
    /// the greatest first.
    #[error("reversed")]
    Reversed { p: u32, q: u32 },
    #[error("out of memory")]
    Memory,
}

impl From<NoMemory> for GrowFault {
    ghost use Rattle.std.specs.Prelude.{◌≡◌};
    ghost use Rattle.spf_grow.specs.declared.grow_fault.GrowFault.TheVariants.{Memory};

    ghost from_gives = { λ _ fault. fault ≡ Memory };

    fn from(_error: NoMemory) -> GrowFault {
        GrowFault::Memory
    }
}
