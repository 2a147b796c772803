//! How a unit touches an element.

ghost use Rattle.std.specs.Prelude.{◌≡◌};

use spf_base::wadd;

/// Read alone, added to alone, or touched in any other way.
#[derive(Clone, Copy)]
pub enum Class {
    Read,
    Write,
    Add,
}

impl Class {
    ghost use Rattle.spf_touch.specs.Blend.{blend, is_reduction, neutral};

    /// Whether its blends may be taken in any order.
    pub fn is_reduction(self) -> bool
        ensures { result ≡ is_reduction self }
    {
        matches!(self, Class::Add)
    }

    /// The number whose blend changes nothing.
    pub fn neutral(self) -> i64
        ensures { result ≡ neutral self }
    {
        0
    }

    /// What becomes of an old value and a new one.
    pub fn blend(self, old: i64, new: i64) -> i64
        ensures { result ≡ blend self old new }
    {
        match self {
            Class::Read => old,
            Class::Write => new,
            Class::Add => wadd(old, new),
        }
    }
}
