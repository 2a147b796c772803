//! Why there are no touch lists.

use spf_base::NoMemory;
use thiserror::Error;

/// The first fault on the way through a step, or want of memory.
#[derive(Debug, Drop, Error)]
pub enum AccessFault {
    /// At an iteration of a loop a site has a value that isn't allowed there.
    #[error("range")]
    Range {
        loop_no: u32,
        iteration: i64,
        site: u32,
        value: i64,
    },
    /// There are more visits in all steps together than there may be.
    #[error("visits")]
    Visits {
        count: u64,
    },
    #[error("out of memory")]
    Memory,
}

impl From<NoMemory> for AccessFault {
    ghost use Rattle.std.specs.Prelude.{◌≡◌};
    ghost use Rattle.spf_access.specs.declared.access_fault.AccessFault.TheVariants.{Memory};

    ghost from_gives = { λ _ fault. fault ≡ Memory };

    fn from(_error: NoMemory) -> AccessFault {
        AccessFault::Memory
    }
}
