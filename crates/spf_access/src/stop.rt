//! Why a walk stops.

use spf_base::NoMemory;

/// Why the walk stops in an iteration.
#[derive(Drop)]
pub(crate) enum Stop {
    /// The site has a value that isn't allowed there.
    Range { site: u32, value: i64 },
    /// With this visit there are so many in all steps together, which are too many.
    Visits { count: u64 },
    Memory,
}

impl From<NoMemory> for Stop {
    ghost use Rattle.std.specs.Prelude.{◌≡◌};
    ghost use Rattle.spf_access.specs.declared.stop.Stop.TheVariants.{Memory};

    ghost from_gives = { λ _ stop. stop ≡ Memory };

    fn from(_error: NoMemory) -> Stop {
        Stop::Memory
    }
}
