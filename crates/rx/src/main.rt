//! The program: passes the command line's words, standard input and standard output to `rx_main::run`.
//!
//! The exit status is that of `run`. It is 7 if memory for the arguments runs out, and 8 if the system passes no
//! arguments, not even the program's name.
#![tactic(auto)]

use rx_base::{ReadSource, WriteSink};
use rx_main::{Words, run};
use std::alloc::{AllocError, Global};
use std::env::{Env, FillError};
use std::process::ExitCode;

/// The exit status if memory for the arguments runs out.
const NO_MEMORY: u8 = 7;
/// The exit status if there are no arguments.
const NO_ARGUMENTS: u8 = 8;

/// The argument at an index, or `None` if there are fewer.
fn argument<E: Env>(env: &E, alloc: Global, index: usize) -> Result<Option<Vec<u8>>, AllocError> {
    let mut room: usize = 256;
    for _ in 0..usize::BITS {
        let mut bytes = vec![in alloc; 0; room]?;
        match env.arg(index, &mut bytes) {
            Ok(len) => {
                bytes.truncate(len);
                return Ok(Some(bytes));
            }
            Err(FillError::NotPresent) => return Ok(None),
            Err(FillError::TooLong) => room = room.saturating_add(room),
        }
    }
    Err(AllocError)
}

/// The arguments after the program's name, or `None` if even that is missing.
fn arguments<E: Env>(env: &E, alloc: Global) -> Result<Option<Words>, AllocError> {
    if argument(env, alloc, 0)?.is_none() {
        return Ok(None);
    }
    let mut words = Words::new(alloc);
    for index in 1..usize::MAX {
        match argument(env, alloc, index)? {
            Some(word) => words.push(&word)?,
            None => break,
        }
    }
    Ok(Some(words))
}

fn main(rt: HostRuntime) -> ExitCode {
    let words = match arguments(&rt, rt.alloc()) {
        Ok(Some(words)) => words,
        Ok(None) => return ExitCode::from(NO_ARGUMENTS),
        Err(AllocError) => return ExitCode::from(NO_MEMORY),
    };
    let mut source = ReadSource::new(rt.stdin());
    let mut sink = WriteSink::new(rt.stdout());
    ExitCode::from(run(rt.alloc(), &words, &mut source, &mut sink))
}
