//! The standard streams of the process.

ghost use Rattle.std.specs.Prelude.{◌≡◌, ◌<◌, ◌≤◌, length, None, IfOk, OnOk, OnErr};
ghost use Rattle.std.specs.Io.KnownBytes.{ReadConsumes, WriteAppends};
ghost use Rattle.spf_io.specs.Stream.{count_up};

use crate::failed::Failed;
use crate::sink::Sink;
use crate::source::Source;
use std::io::{Read, Stderr, Stdin, Stdout, Write};
use std::marker::Model;

/// Standard input, seen as its count of faults. It tells no contents. Each error of the stream is a fault.
#[derive(Drop)]
pub struct StdSource {
    stdin: Stdin,
    faults: u64,
}

impl Model for StdSource {
    ghost use Rattle.std.specs.Prelude.{ℕ};

    ghost Value = { ℕ };

    ghost view = { λ s. s.faults };
}

impl StdSource {
    /// It reads nothing yet.
    pub fn new(rt: &HostRuntime) -> StdSource
        ensures { result ≡ 0 }
    {
        StdSource {
            stdin: rt.stdin(),
            faults: 0,
        }
    }
}

impl Source for StdSource {
    ghost held = { λ _. None };

    ghost faults = { λ s. s };

    fn read(&mut self, into: &mut [u8]) -> Result<usize, Failed>
        ensures count { IfOk result (λ n. n ≤ length into.old) }
        ensures kept { OnOk result (self.new ≡ self.old) }
        ensures counted { OnErr result (self.new ≡ count_up self.old) }
        ensures never_falls { self.old ≤ self.new }
    {
        read_counted(&mut self.stdin, &mut self.faults, into)
    }
}

/// One read of a stream, by which the count of faults rises where the stream fails.
fn read_counted<R: Read>(stream: &mut R, faults: &mut u64, into: &mut [u8]) -> Result<usize, Failed>
    ensures count { IfOk result (λ n. n ≤ length into.old) }
    ensures consumed { ReadConsumes (R.remaining stream.old) (R.remaining stream.new) result into.new }
    ensures kept { OnOk result (faults.new ≡ faults.old) }
    ensures counted { OnErr result (faults.new ≡ count_up faults.old) }
    ensures never_falls { faults.old ≤ faults.new }
{
    match stream.read(into) {
        Ok(count) => Ok(count),
        Err(_) => {
            *faults = faults.saturating_add(1);
            Err(Failed)
        }
    }
}

#[derive(Drop)]
enum Stream {
    Output(Stdout),
    Error(Stderr),
}

/// Standard output or standard error, seen as its count of faults. It tells no contents. Each error of the stream is a
/// fault, and so is a write that takes nothing of a piece that isn't empty.
#[derive(Drop)]
pub struct StdSink {
    stream: Stream,
    faults: u64,
}

impl Model for StdSink {
    ghost use Rattle.std.specs.Prelude.{ℕ};

    ghost Value = { ℕ };

    ghost view = { λ s. s.faults };
}

impl StdSink {
    /// Standard error where `error_stream` is true, and else standard output.
    pub fn new(rt: &HostRuntime, error_stream: bool) -> StdSink
        ensures { result ≡ 0 }
    {
        let stream = if error_stream {
            Stream::Error(rt.stderr())
        } else {
            Stream::Output(rt.stdout())
        };
        StdSink { stream, faults: 0 }
    }
}

impl Sink for StdSink {
    ghost written = { λ _. None };

    ghost faults = { λ s. s };

    fn write(&mut self, piece: &[u8]) -> Result<usize, Failed>
        ensures count { IfOk result (λ n. n ≤ length piece.now) }
        ensures some { IfOk result (λ n. 0 < length piece.now → 0 < n) }
        ensures kept { OnOk result (self.new ≡ self.old) }
        ensures counted { OnErr result (self.new ≡ count_up self.old) }
        ensures never_falls { self.old ≤ self.new }
    {
        match &mut self.stream {
            Stream::Output(output) => write_counted(output, &mut self.faults, piece),
            Stream::Error(error) => write_counted(error, &mut self.faults, piece),
        }
    }
}

/// One write to a stream, by which the count of faults rises where the stream fails, and where it takes nothing of a
/// piece that isn't empty.
fn write_counted<W: Write>(stream: &mut W, faults: &mut u64, piece: &[u8]) -> Result<usize, Failed>
    ensures count { IfOk result (λ n. n ≤ length piece.now) }
    ensures some { IfOk result (λ n. 0 < length piece.now → 0 < n) }
    ensures appended { WriteAppends (W.contents stream.old) (W.contents stream.new) result piece.now }
    ensures kept { OnOk result (faults.new ≡ faults.old) }
    ensures counted { OnErr result (faults.new ≡ count_up faults.old) }
    ensures never_falls { faults.old ≤ faults.new }
{
    match stream.write(piece) {
        Ok(count) if count > 0 || piece.is_empty() => Ok(count),
        _ => {
            *faults = faults.saturating_add(1);
            Err(Failed)
        }
    }
}
