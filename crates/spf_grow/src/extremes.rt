//! The greatest numbers at each element, by class.

ghost use Rattle.std.specs.Prelude.{◌≡◌, ◌≤◌, ℕ, IfOk, length};
ghost use Rattle.spf_grow.specs.Bounds.{AreEmpty, AreWithin, IsAbove, IsNoted, against_of, with_number};

use spf_base::NoMemory;
use spf_touch::{Class, Touch};
use std::alloc::Global;

/// The greatest numbers of the units that read an element, write it, and add to it; 0 where there is none.
#[derive(Clone, Copy)]
pub(crate) struct Extremes {
    read: u32,
    write: u32,
    add: u32,
}

impl Extremes {
    /// The greatest number of the classes with which this one conflicts.
    fn against(self, class: Class) -> u32
        ensures { result ≡ against_of self class }
    {
        match class {
            Class::Read => self.write.max(self.add),
            Class::Write => self.read.max(self.write.max(self.add)),
            Class::Add => self.read.max(self.write),
        }
    }

    fn with(self, class: Class, number: u32) -> Extremes
        ensures { result ≡ with_number self class number }
    {
        match class {
            Class::Read => Extremes {
                read: self.read.max(number),
                ..self
            },
            Class::Write => Extremes {
                write: self.write.max(number),
                ..self
            },
            Class::Add => Extremes {
                add: self.add.max(number),
                ..self
            },
        }
    }
}

const NONE: Extremes = Extremes {
    read: 0,
    write: 0,
    add: 0,
};

/// No number at any element.
pub(crate) fn no_numbers(alloc: Global, cells: u32) -> Result<Vec<Extremes>, NoMemory>
    ensures cells { IfOk result (λ bounds. length bounds.items ≡ cells) }
    ensures empty { IfOk result (λ bounds. AreEmpty bounds.items) }
{
    Ok(vec![in alloc; NONE; cells as usize]?)
}

/// Forgets all numbers.
pub(crate) fn forget(bounds: &mut [Extremes])
    ensures { AreEmpty bounds.new }
{
    for extremes in bounds.iter_mut() {
        *extremes = NONE;
    }
}

/// The greatest number at the elements of these touches, in the classes that conflict with theirs.
pub(crate) fn greatest(bounds: &[Extremes], touches: &[Touch]) -> u32
    requires { AreWithin touches.now (length bounds.now) }
    ensures above { IsAbove bounds.now touches.now result }
    ensures least { (x : ℕ) → IsAbove bounds.now touches.now x → result ≤ x }
{
    let mut greatest = 0;
    for touch in touches {
        let extremes = bounds[touch.element as usize];
        greatest = greatest.max(extremes.against(touch.class));
    }
    greatest
}

/// Notes the number of a unit with these touches.
pub(crate) fn note(bounds: &mut [Extremes], touches: &[Touch], number: u32)
    requires { AreWithin touches.now (length bounds.old) }
    ensures { IsNoted bounds.old touches.now number bounds.new }
{
    for touch in touches {
        let element = touch.element as usize;
        bounds[element] = bounds[element].with(touch.class, number);
    }
}
