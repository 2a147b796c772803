//! A sink over memory.

ghost use Rattle.std.specs.Prelude.{◌≡◌, ◌↔◌, ◌<◌, ◌≤◌, [], length, take, Some, IsErr, IfOk, OnErr};
ghost use Rattle.spf_io.specs.MemSink.{Fails, after_failing, after_taking, taken_count};

use crate::failed::Failed;
use crate::listed::is_listed;
use crate::sink::Sink;
use spf_base::NoMemory;
use std::alloc::Global;
use std::marker::Model;

/// A sink over memory. It takes at most `piece` bytes per call and `room` bytes in all. It fails exactly at the calls
/// numbered in `failing`, from 0, and at a piece that isn't empty where no room is left. A call costs what it takes and
/// a look through `failing`.
#[derive(Drop)]
pub struct MemSink {
    written: Vec<u8>,
    room: u32,
    piece: u32,
    failing: Vec<u32>,
    calls: u64,
    faults: u64,
}

impl Model for MemSink {
    ghost use Rattle.std.specs.Prelude.{◌≤◌, length, vec_capacity};
    ghost use Rattle.spf_io.specs.MemSink.{MemSinkState};

    ghost Value = { MemSinkState };

    ghost view = { λ s. record {
      written = s.written.items;
      room = s.room;
      piece = s.piece;
      failing = s.failing.items;
      calls = s.calls;
      faults = s.faults;
    } };

    ghost invariant = { λ s. (length s.written.items ≤ s.room) × (s.room ≤ vec_capacity s.written)
        × (1 ≤ s.piece) };
}

impl MemSink {
    /// A sink on which nothing stands, before its first call. It takes the memory for `room` bytes at once, and `write`
    /// takes none.
    pub fn new(alloc: Global, room: u32, piece: u32, failing: Vec<u32>) -> Result<MemSink, NoMemory>
        requires { 1 ≤ piece }
        ensures { IfOk result (λ sink. sink ≡ record {
          written = [];
          room = room;
          piece = piece;
          failing = failing.items;
          calls = 0;
          faults = 0;
        }) }
    {
        let written = Vec::with_capacity(alloc, room as usize)?;
        Ok(MemSink {
            written,
            room,
            piece,
            failing,
            calls: 0,
            faults: 0,
        })
    }

    /// The bytes that stand on it. Constant.
    pub fn written(&self) -> &[u8]
        ensures bytes { result.now ≡ self.now.written }
        ensures within { length result.now ≤ self.now.room }
    {
        self.written.as_slice()
    }
}

impl Sink for MemSink {
    ghost written = { λ s. Some s.written };

    ghost faults = { λ s. s.faults };

    fn write(&mut self, piece: &[u8]) -> Result<usize, Failed>
        ensures fails { IsErr result ↔ Fails self.old piece.now }
        ensures count { IfOk result (λ n. n ≡ taken_count self.old piece.now) }
        ensures after { IfOk result (λ n. self.new ≡ after_taking self.old (take n piece.now)) }
        ensures after_fault { OnErr result (self.new ≡ after_failing self.old) }

        // What the trait asks besides.
        ensures some { IfOk result (λ n. 0 < length piece.now → 0 < n) }
        ensures never_falls { self.old.faults ≤ self.new.faults }
    {
        let call = self.calls;
        self.calls = call.saturating_add(1);
        let room = self.room as usize - self.written.len();
        if is_listed(call, &self.failing) || (room == 0 && !piece.is_empty()) {
            self.faults = self.faults.saturating_add(1);
            return Err(Failed);
        }
        let count = piece.len().min(self.piece as usize).min(room);
        self.written.extend_from_slice(&piece[..count]).unwrap();
        Ok(count)
    }
}
