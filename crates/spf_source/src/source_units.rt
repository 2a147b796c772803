//! The units of a kernel, as units that may be run in any legal order.

ghost use Rattle.std.specs.Prelude.{◌≡◌, ◌<◌, ◌^◌, length};
ghost use Rattle.spf_store.specs.Accepted.{IsAccepted};
ghost use Rattle.spf_store.specs.Accesses.{touches_of};
ghost use Rattle.spf_store.specs.FirstFault.{AreInRange};
ghost use Rattle.spf_store.specs.Shaped.{IsShapeOf};
ghost use Rattle.spf_store.specs.Behavior.{source_behavior};

use crate::unit::run_unit;
use spf_kernel::Kernel;
use spf_space::Shape;
use spf_term::Env;
use spf_touch::{Cells, Touch, Touches, Units};
use std::marker::Model;

/// The units of all steps of a kernel, in textual order, seen as the kernel, what it is run with, and the steps. A unit of a
/// later step touches what that of the first step does, whose touch list is lent.
#[derive(Drop)]
pub struct SourceUnits<'a> {
    kernel: &'a Kernel,
    env: &'a Env,
    shape: &'a Shape,
    touches: &'a Touches,
}

impl<'a> Model for SourceUnits<'a> {
    ghost use Rattle.std.specs.Coded.{codes};
    ghost use Rattle.spf_term.specs.contracts.term.Term as term;
    ghost use Rattle.spf_kernel.specs.contracts.tree.Value as value;
    ghost use Rattle.spf_store.specs.Behavior.{AreSourced, Sourced};

    ghost Value = { Sourced };

    ghost coded = { Prim.hlevel (codes, term.the_row.coded, value.the_row.coded) };

    ghost view = { λ units. record { env = units.env.now; tree = units.kernel.now; steps = units.shape.now.steps } };

    ghost invariant = { λ units. AreSourced units.env.now units.kernel.now units.shape.now units.touches.now };
}

impl<'a> SourceUnits<'a> {
    /// The units of a kernel with this shape and these touch lists. It takes no memory.
    pub fn of(
        kernel: &'a Kernel,
        env: &'a Env,
        shape: &'a Shape,
        touches: &'a Touches,
    ) -> SourceUnits<'a>
        requires accepted { IsAccepted env.now kernel.now }
        requires shape { IsShapeOf env.now kernel.now shape.now }
        requires range { 0 < shape.now.steps → AreInRange env.now kernel.now }
        requires touches { touches.now ≡ touches_of env.now kernel.now shape.now.steps }
        ensures { result ≡ record { env = env.now; tree = kernel.now; steps = shape.now.steps } }
    {
        SourceUnits {
            kernel,
            env,
            shape,
            touches,
        }
    }

    fn touches_at(&self, unit: u32) -> &[Touch]
        requires { unit < (source_behavior self.now.env self.now.tree self.now.steps).count }
        ensures touches { result.now ≡ (source_behavior self.now.env self.now.tree self.now.steps).touches unit }
        ensures short { length result.now < 2 ^ 32 }
    {
        self.touches.of(unit % self.touches.locals())
    }
}

impl<'a> Units for SourceUnits<'a> {
    ghost use Rattle.spf_store.specs.Behavior.{source_behavior};
    ghost use Rattle.spf_store.specs.BehaviorLaw.{source_law};

    ghost behavior = { λ units. source_behavior units.env units.tree units.steps };

    ghost framed = { λ units. source_law units.env units.tree units.steps };

    fn count(&self) -> u32 {
        self.shape.units()
    }

    fn touch_count(&self, unit: u32) -> u32 {
        self.touches_at(unit).len() as u32
    }

    fn touch(&self, unit: u32, nth: u32) -> Touch {
        self.touches_at(unit)[nth as usize]
    }

    fn run<C: Cells>(&self, unit: u32, cells: &mut C) {
        let unit = self.shape.split(unit);
        run_unit(self.kernel, self.env, self.shape, &unit, cells);
    }
}
