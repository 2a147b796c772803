//! All the bytes of a slice onto a sink.

ghost use Rattle.std.specs.Prelude.{◌≡◌, ℕ, ◌≤◌, length, take, OnOk, OnErr};
ghost use Rattle.spf_io.specs.Stream.{Rose, Appends};

use crate::failed::Failed;
use crate::sink::Sink;

/// Appends all the bytes to what stands on the sink, or a front of them where the sink fails. It takes no memory, and
/// writes to the sink at most once for each byte.
#[tactic(auto, using(crate::proofs::StreamLemmas::appended_on, std::proofs::lemmas::List::take_rest))]
pub fn write_all<K: Sink>(sink: &mut K, bytes: &[u8]) -> Result<(), Failed>
    ensures all { OnOk result (Appends (K.written sink.old) bytes.now (K.written sink.new)) }
    ensures front { OnErr result ((n : ℕ) × (n ≤ length bytes.now)
        × Appends (K.written sink.old) (take n bytes.now) (K.written sink.new)) }
    ensures fault { OnErr result (Rose (K.faults sink.old) (K.faults sink.new)) }
    ensures never_falls { K.faults sink.old ≤ K.faults sink.new }
{
    let mut done = 0;
    while done < bytes.len() {
        done += sink.write(&bytes[done..])?;
    }
    Ok(())
}
