//! What bytes are written to.

ghost use Rattle.std.specs.Prelude.{◌≡◌, ℕ, ◌<◌, ◌≤◌, List, length, take, Option, IfOk, OnErr};
ghost use Rattle.spf_io.specs.Stream.{Rose, Appends};

use crate::failed::Failed;

/// A sink of bytes that may fail and be written to again.
pub trait Sink {
    /// The bytes that stand on it, where it tells them.
    ghost written: { Self → Option (List ℕ) };

    /// How often it has failed. It never falls.
    ghost faults: { Self → ℕ };

    /// Writes a front of the piece, and answers how many bytes that are.
    fn write(&mut self, piece: &[u8]) -> Result<usize, Failed>
        ensures count { IfOk result (λ n. n ≤ length piece.now) }
        ensures some { IfOk result (λ n. 0 < length piece.now → 0 < n) }
        ensures appended { IfOk result (λ n. Appends (written self.old) (take n piece.now) (written self.new)) }
        ensures unchanged { OnErr result (written self.new ≡ written self.old) }
        ensures fault { OnErr result (Rose (faults self.old) (faults self.new)) }
        ensures never_falls { faults self.old ≤ faults self.new };
}
