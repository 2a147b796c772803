//! The units of a shape and their touches.

ghost use Rattle.std.specs.Prelude.{◌≡◌, ◌+◌, ◌<◌, ◌^◌, length};
ghost use Rattle.spf_space.specs.Layout.{cells_in};
ghost use Rattle.spf_touch.specs.Repeated.{touches_at};
ghost use Rattle.spf_grow.specs.Growth.{first_unit};

use spf_space::{ArrayShape, Shape};
use spf_touch::{Touch, Touches};

/// What the unit of this ordinal touches.
pub(crate) fn touched(touches: &Touches, unit: u32) -> &[Touch]
    requires { 0 < length touches.now }
    ensures { result.now ≡ touches_at touches.now unit }
{
    touches.of(unit % touches.locals())
}

/// The ordinal of the first unit of a loop at a step.
pub(crate) fn first_of(shape: &Shape, step: u32, loop_no: u32) -> u32
    requires step { step < shape.now.steps }
    requires there { loop_no < length shape.now.loops }
    ensures { result ≡ first_unit shape.now.loops step loop_no }
{
    step * shape.per_step() + shape.before(loop_no)
}

pub(crate) fn cells_of(arrays: &[ArrayShape]) -> u32
    requires { cells_in arrays.now < 2 ^ 32 }
    ensures { result ≡ cells_in arrays.now }
{
    arrays.iter().map(|array| array.length).sum()
}
