//! The touched elements of each iteration.

ghost use Rattle.std.specs.Prelude.{◌≡◌, ◌<◌, ◌≤◌, ◌^◌, length, slice_get, Some};
ghost use Rattle.std.specs.List.{slice_range};
ghost use Rattle.spf_touch.specs.Frame.{IsOnce};
ghost use Rattle.spf_touch.specs.Lists.{AreCut, AreLists, cut, start_of};

use crate::touch::Touch;
use std::marker::Model;

/// For each iteration of one step its distinct touched elements, seen as the list of these lists. All touches lie in one
/// list: 8 bytes for each, and 4 for each iteration.
#[derive(Drop)]
pub struct Touches {
    touches: Vec<Touch>,
    ends: Vec<u32>,
}

impl Model for Touches {
    ghost use Rattle.std.specs.Prelude.{List};
    ghost use Rattle.spf_touch.specs.declared.touch.Touch.{Touch};
    ghost use Rattle.spf_touch.specs.Lists.{AreCut, cut};

    ghost Value = { List (List Touch) };

    ghost view = { λ touches. cut touches.touches.items 0 touches.ends.items };

    ghost invariant = { λ touches. AreCut touches.touches.items touches.ends.items };
}

/// Where a list begins.
pub(crate) fn start_of(ends: &[u32], list: usize) -> usize
    requires { list ≤ length ends.now }
    ensures { result ≡ start_of 0 ends.now list }
{
    if list == 0 {
        0
    } else {
        ends[list - 1] as usize
    }
}

fn part(touches: &[Touch], start: usize, end: usize) -> &[Touch]
    requires order { start ≤ end }
    requires inside { end ≤ length touches.now }
    ensures { result.now ≡ slice_range touches.now start end }
{
    &touches[start..end]
}

fn list_at<'a>(touches: &'a [Touch], ends: &[u32], list: usize) -> &'a [Touch]
    requires lists { AreLists touches.now 0 ends.now }
    requires there { list < length ends.now }
    ensures list { slice_get (cut touches.now 0 ends.now) list ≡ Some result.now }
    ensures once { IsOnce result.now }
    ensures short { length result.now ≤ length touches.now }
{
    part(touches, start_of(ends, list), ends[list] as usize)
}

impl Touches {
    /// The touches of which these are the ends of the lists.
    pub(crate) fn of_parts(touches: Vec<Touch>, ends: Vec<u32>) -> Touches
        requires { AreCut touches.items ends.items }
        ensures { result ≡ cut touches.items 0 ends.items }
    {
        Touches { touches, ends }
    }

    /// The number of iterations.
    pub fn locals(&self) -> u32
        ensures { result ≡ length self.now }
    {
        self.ends.len() as u32
    }

    pub fn of(&self, local: u32) -> &[Touch]
        requires { local < length self.now }
        ensures list { slice_get self.now local ≡ Some result.now }
        ensures once { IsOnce result.now }
        ensures short { length result.now < 2 ^ 32 }
    {
        list_at(
            self.touches.as_slice(),
            self.ends.as_slice(),
            local as usize,
        )
    }
}
