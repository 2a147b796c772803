//! Why there is no plan.

use spf_base::NoMemory;
use spf_space::Unit;
use std::fmt;
use thiserror::Error;

/// The refusal of a step, counted from 1, or want of memory.
#[derive(Drop, Error)]
pub enum PlanFault {
    /// The step reverses two conflicting units, or the parts of a tiling fall along them: of all such pairs the one with the
    /// least second and then the greatest first.
    #[error("illegal")]
    Illegal { step: u32, p: Unit, q: Unit },
    #[error("out of memory")]
    Memory,
}

/// The word of the fault, without its units.
impl fmt::Debug for PlanFault {
    fn fmt<W: fmt::Write>(&self, f: &mut fmt::Formatter<W>) -> fmt::Result {
        fmt::Display::fmt(self, f)
    }
}

impl From<NoMemory> for PlanFault {
    ghost use Rattle.std.specs.Prelude.{◌≡◌};
    ghost use Rattle.spf_plan.specs.declared.plan_fault.PlanFault.TheVariants.{Memory};

    ghost from_gives = { λ _ fault. fault ≡ Memory };

    fn from(_error: NoMemory) -> PlanFault {
        PlanFault::Memory
    }
}
