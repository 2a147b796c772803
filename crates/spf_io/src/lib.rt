//! Sources and sinks of bytes: what the compiler reads its input from and writes its texts to.
//!
//! It stands on spf_base, for want of memory. Upward it gives one contract: `read_all` answers all the bytes that a
//! source held, to the end of input, and `write_all` appends all the bytes that it is given; where a device fails, a
//! front of them was taken or appended, and the device's count of faults rose (`Takes`, `Appends`, `Rose`).
//!
//! `MemSource` and `MemSink` lie in memory, tell their contents, and fail where they are told to. `StdSource` and
//! `StdSink` adapt the standard streams of the process, and tell no contents. Each call is linear in the bytes that it
//! moves, and at a device over memory also in the list of the calls that fail.
#![tactic(auto)]

mod failed;
mod listed;
mod mem_sink;
mod mem_source;
mod sink;
mod source;
mod std_streams;
mod whole_input;
mod whole_output;

pub use failed::Failed;
pub use mem_sink::MemSink;
pub use mem_source::MemSource;
pub use sink::Sink;
pub use source::Source;
pub use std_streams::{StdSink, StdSource};
pub use whole_input::{MAX_BYTES, ReadAll, read_all};
pub use whole_output::write_all;
