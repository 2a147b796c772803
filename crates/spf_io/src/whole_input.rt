//! All the bytes of a source.

ghost use Rattle.std.specs.Prelude.{◌≡◌, ℕ, ◌+◌, ◌≤◌, List, [], length, IfOk, OnOk, OnErr, IsErrOf, IfSome};
ghost use Rattle.spf_io.specs.Stream.{Rose, Takes};

use crate::failed::Failed;
use crate::source::Source;
use std::alloc::Global;
use thiserror::Error;

/// The greatest number of bytes that `read_all` takes as an input: 64 MiB.
pub const MAX_BYTES: usize = 67_108_864;

/// How many bytes `read_all` asks for at a time.
const PIECE_BYTES: usize = 16_384;

/// Why `read_all` refuses.
#[derive(Clone, Copy, Debug, PartialEq, Eq, Error)]
pub enum ReadAll {
    /// Want of memory.
    #[error("memory")]
    Memory,
    /// The source failed.
    #[error("fault")]
    Fault,
    /// The source gave more than `MAX_BYTES` bytes.
    #[error("length")]
    TooLong,
}

/// All the bytes of a source, to the end of input. Linear in the bytes, with at most one read of the source for each
/// byte and one for the end.
pub fn read_all<S: Source>(alloc: Global, source: &mut S) -> Result<Vec<u8>, ReadAll>
    // All that the source held, and nothing is left.
    ensures all { IfOk result (λ bytes. Takes (S.held source.old) bytes.items (S.held source.new)) }
    ensures whole { IfOk result (λ bytes. IfSome (S.held source.old) (λ held. held ≡ bytes.items)) }
    ensures to_the_end { OnOk result (IfSome (S.held source.new) (λ rest. rest ≡ [])) }
    ensures within { IfOk result (λ bytes. length bytes.items ≤ MAX_BYTES) }

    // Where it refuses, a front of the bytes was taken; where there are too many, one more than it may take.
    ensures front { OnErr result ((front : List ℕ) × Takes (S.held source.old) front (S.held source.new)) }
    ensures too_long { IsErrOf result ReadAll.TooLong → (front : List ℕ) × (length front ≡ MAX_BYTES + 1)
        × Takes (S.held source.old) front (S.held source.new) }

    ensures fault { IsErrOf result ReadAll.Fault → Rose (S.faults source.old) (S.faults source.new) }
    ensures never_falls { S.faults source.old ≤ S.faults source.new }
{
    let mut bytes = Vec::new(alloc);
    let mut piece = [0u8; PIECE_BYTES];
    while bytes.len() <= MAX_BYTES {
        let room = PIECE_BYTES.min(MAX_BYTES + 1 - bytes.len());
        match source.read(&mut piece[..room]) {
            Err(Failed) => return Err(ReadAll::Fault),
            Ok(0) => return Ok(bytes),
            Ok(count) => {
                if bytes.extend_from_slice(&piece[..count]).is_err() {
                    return Err(ReadAll::Memory);
                }
            }
        }
    }
    Err(ReadAll::TooLong)
}
