//! The source loops of a bundle, run by the plain interpreter in textual order: what `bench/executing` puts `spf run` beside.
//!
//! It reads a bundle from standard input as `spf run` does, walks its accesses, leaves the script alone, and writes the arrays.
//! It stands on spf_input, spf_store and spf_access for what is read and walked, on spf_source for the interpreter, and on
//! spf_top for the text of the arrays. A bundle that is refused ends with status 1 and a line, which says no more.
#![tactic(auto)]

ghost use Rattle.std.specs.Prelude.{◌≤◌, length};

use spf_access::{AccessFault, accesses, no_fault_is_in_range};
use spf_base::NoMemory;
use spf_input::{InputFault, read_bundle};
use spf_io::{ReadAll, StdSink, StdSource, read_all, write_all};
use spf_source::run_source;
use spf_store::{ShapeFault, shape};
use spf_top::{arrays_text, kept};
use std::alloc::Global;
use std::process::ExitCode;

/// There is no text of arrays: nothing was read, the bundle is refused, or memory ran out.
#[derive(Drop)]
struct Refused;

impl From<ReadAll> for Refused {
    fn from(_: ReadAll) -> Refused {
        Refused
    }
}

impl From<InputFault> for Refused {
    fn from(_: InputFault) -> Refused {
        Refused
    }
}

impl From<ShapeFault> for Refused {
    fn from(_: ShapeFault) -> Refused {
        Refused
    }
}

impl From<AccessFault> for Refused {
    fn from(_: AccessFault) -> Refused {
        Refused
    }
}

impl From<NoMemory> for Refused {
    fn from(_: NoMemory) -> Refused {
        Refused
    }
}

/// The text of the arrays behind the source loops. Linear in the bytes, the visits and the text.
fn ran(alloc: Global, text: &[u8]) -> Result<Vec<u8>, Refused>
    requires { length text.now ≤ 67108864 }
{
    no_fault_is_in_range();
    let mut bundle = read_bundle(alloc, text)?;
    kept(&bundle);
    let shape = shape(alloc, &bundle.kernel, &bundle.env)?;
    let _touches = accesses(alloc, &bundle.kernel, &bundle.env, &shape)?;
    if shape.steps > 0 {
        run_source(&bundle.kernel, &bundle.env, &mut bundle.store, shape.steps);
    }
    Ok(arrays_text(alloc, &bundle.store)?)
}

/// The same for what standard input holds.
fn answer(rt: &HostRuntime) -> Result<Vec<u8>, Refused> {
    let mut source = StdSource::new(rt);
    let bytes = read_all(rt.alloc(), &mut source)?;
    ran(rt.alloc(), &bytes)
}

fn main(rt: HostRuntime) -> ExitCode {
    let mut out = StdSink::new(&rt, false);
    let mut err = StdSink::new(&rt, true);
    match answer(&rt) {
        Ok(text) => match write_all(&mut out, &text) {
            Ok(()) => ExitCode::SUCCESS,
            Err(_) => ExitCode::FAILURE,
        },
        Err(Refused) => {
            let _ = write_all(&mut err, b"refused\n");
            ExitCode::FAILURE
        }
    }
}
