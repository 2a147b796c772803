//! The calls that a device over memory is told to fail.

ghost use Rattle.std.specs.Prelude.{◌↔◌, Contains, IsTrue};

/// Whether the number of a call stands in a list. Linear in the list.
pub(crate) fn is_listed(call: u64, list: &[u32]) -> bool
    ensures { IsTrue result ↔ Contains list.now call }
{
    list.iter().any(|number| u64::from(*number) == call)
}
