//! A source over memory.

ghost use Rattle.std.specs.Prelude.{◌≡◌, ◌↔◌, ◌<◌, ◌≤◌, ◌++◌, [], length, take, drop, Some, Ok, IsErr, IfOk, OnErr, Contains};
ghost use Rattle.spf_io.specs.MemSource.{after_failing, after_giving, given_count};

use crate::failed::Failed;
use crate::listed::is_listed;
use crate::source::Source;
use std::marker::Model;

/// A source over memory. It gives at most `piece` bytes per call and fails exactly at the calls numbered in `failing`,
/// from 0. A call costs what it gives and a look through `failing`.
#[derive(Drop)]
pub struct MemSource {
    bytes: Vec<u8>,
    place: usize,
    piece: u32,
    failing: Vec<u32>,
    calls: u64,
    faults: u64,
}

impl Model for MemSource {
    ghost use Rattle.std.specs.Prelude.{◌≤◌, length, drop};
    ghost use Rattle.spf_io.specs.MemSource.{MemSourceState};

    ghost Value = { MemSourceState };

    ghost view = { λ s. record {
      held = drop s.place s.bytes.items;
      piece = s.piece;
      failing = s.failing.items;
      calls = s.calls;
      faults = s.faults;
    } };

    ghost invariant = { λ s. (s.place ≤ length s.bytes.items) × (1 ≤ s.piece) };
}

impl MemSource {
    /// A source that holds these bytes, before its first call. It takes no memory.
    pub fn new(bytes: Vec<u8>, piece: u32, failing: Vec<u32>) -> MemSource
        requires { 1 ≤ piece }
        ensures { result ≡ record {
          held = bytes.items;
          piece = piece;
          failing = failing.items;
          calls = 0;
          faults = 0;
        } }
    {
        MemSource {
            bytes,
            place: 0,
            piece,
            failing,
            calls: 0,
            faults: 0,
        }
    }
}

impl Source for MemSource {
    ghost held = { λ s. Some s.held };

    ghost faults = { λ s. s.faults };

    fn read(&mut self, into: &mut [u8]) -> Result<usize, Failed>
        ensures fails { IsErr result ↔ Contains self.old.failing self.old.calls }
        ensures count { IfOk result (λ n. n ≡ given_count self.old (length into.old)) }
        ensures slice { IfOk result (λ n. into.new ≡ take n self.old.held ++ drop n into.old) }
        ensures slice_unchanged { OnErr result (into.new ≡ into.old) }
        ensures after { IfOk result (λ n. self.new ≡ after_giving self.old n) }
        ensures after_fault { OnErr result (self.new ≡ after_failing self.old) }

        // What the trait asks besides.
        ensures end { result ≡ Ok 0 → 0 < length into.old → self.old.held ≡ [] }
        ensures never_falls { self.old.faults ≤ self.new.faults }
    {
        let call = self.calls;
        self.calls = call.saturating_add(1);
        if is_listed(call, &self.failing) {
            self.faults = self.faults.saturating_add(1);
            return Err(Failed);
        }
        let rest = &self.bytes[self.place..];
        let count = into.len().min(self.piece as usize).min(rest.len());
        into[..count].copy_from_slice(&rest[..count]);
        self.place += count;
        Ok(count)
    }
}
