//! The program `signals`: plays a script of edits and views, and prints the report.
#![tactic(auto)]

use sig_io::{FromReader, ToWriter};
use sig_run::{Open, Words, signals};
use std::alloc::AllocError;
use std::process::ExitCode;
use std::{env, io};

/// The status of words that aren't accepted.
const USAGE: u8 = 1;

/// The status of want of memory.
const MEMORY: u8 = 5;

fn main(rt: HostRuntime) -> ExitCode {
    let status = match words(&rt) {
        Ok(words) => {
            let mut input = FromReader::new(rt.stdin());
            let mut output = ToWriter::new(rt.stdout());
            signals(&rt, rt.alloc(), &words, &mut input, &mut output, &Open)
        }
        Err(status) => status,
    };
    if status == USAGE {
        let _ = rt.eprintln("usage: signals play");
    }
    ExitCode::from(status)
}

/// The words after the program's name, or the status with which to end. Words that aren't all text are
/// none that are accepted.
fn words(rt: &HostRuntime) -> Result<Words, u8> {
    let arguments = match env::args(rt) {
        Ok(arguments) => arguments,
        Err(error) if error.kind() == io::ErrorKind::OutOfMemory => return Err(MEMORY),
        Err(_) => return Err(USAGE),
    };
    let mut words = Words::new(rt.alloc());
    for word in arguments.skip(1) {
        if let Err(AllocError) = words.push(word.as_str()) {
            return Err(MEMORY);
        }
    }
    Ok(words)
}
