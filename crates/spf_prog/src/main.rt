//! The program `spf`: the command on standard input, standard output and standard error.
//!
//! It stands on spf_top for the command and on spf_io for the streams. It ends with the status of the outcome.
#![tactic(auto)]

use spf_io::{StdSink, StdSource, write_all};
use spf_top::{Outcome, command, status};
use std::alloc::AllocError;
use std::env::{Env, FillError};
use std::process::ExitCode;

/// More bytes than an accepted word has.
const WORD_BYTES: usize = 256;

/// The word at a place, if there is one. A word that is longer than any accepted one, or no text, stands as an empty
/// word, which isn't accepted either.
fn word(rt: &HostRuntime, place: usize) -> Result<Option<String>, AllocError> {
    let mut buffer = [0u8; WORD_BYTES];
    match rt.arg(place, &mut buffer) {
        Ok(len) => Ok(Some(String::from_str(
            rt.alloc(),
            std::str::from_utf8(&buffer[..len]).unwrap_or(""),
        )?)),
        Err(FillError::TooLong) => Ok(Some(String::from_str(rt.alloc(), "")?)),
        Err(FillError::NotPresent) => Ok(None),
    }
}

/// The words behind the program's own name.
fn words(rt: &HostRuntime) -> Result<Vec<String>, AllocError> {
    let mut words = Vec::new(rt.alloc());
    for place in 1..usize::MAX {
        match word(rt, place)? {
            Some(word) => words.push(word)?,
            None => break,
        }
    }
    Ok(words)
}

fn main(rt: HostRuntime) -> ExitCode {
    let mut source = StdSource::new(&rt);
    let mut out = StdSink::new(&rt, false);
    let mut err = StdSink::new(&rt, true);
    let outcome = match words(&rt) {
        Ok(words) => command(rt.alloc(), &words, &mut source, &mut out, &mut err),
        Err(AllocError) => {
            let _ = write_all(&mut err, b"memory\n");
            Outcome::Memory
        }
    };
    ExitCode::from(status(&outcome))
}
