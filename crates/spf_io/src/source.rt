//! What bytes are read from.

ghost use Rattle.std.specs.Prelude.{◌≡◌, ℕ, ◌<◌, ◌≤◌, List, [], length, take, Option, Ok, IfOk, OnErr, IfSome};
ghost use Rattle.spf_io.specs.Stream.{Rose, Takes};

use crate::failed::Failed;

/// A source of bytes that may fail and be read again.
pub trait Source {
    /// The bytes not yet read, where it tells them.
    ghost held: { Self → Option (List ℕ) };

    /// How often it has failed. It never falls.
    ghost faults: { Self → ℕ };

    /// Reads some bytes into the front of a slice, and answers how many. `Ok(0)` for a slice that isn't empty is the
    /// end of input.
    fn read(&mut self, into: &mut [u8]) -> Result<usize, Failed>
        ensures count { IfOk result (λ n. n ≤ length into.old) }
        ensures taken { IfOk result (λ n. Takes (held self.old) (take n into.new) (held self.new)) }
        ensures end { result ≡ Ok 0 → 0 < length into.old → IfSome (held self.old) (λ bytes. bytes ≡ []) }
        ensures unchanged { OnErr result (held self.new ≡ held self.old) }
        ensures fault { OnErr result (Rose (faults self.old) (faults self.new)) }
        ensures never_falls { faults self.old ≤ faults self.new };
}
