// The command `pylint`.
#![tactic(auto)]

mod run;
#[cfg(test)]
mod tests;

use crate::run::{WANT_OF_MEMORY, run, words_of};
use lint_base::{RealFiles, RealSink};
use std::io::ErrorKind;
use std::process::ExitCode;
use std::{env, io};

const ARGUMENTS_REFUSED: u8 = 71;

// The arguments of the program, its name among them.
fn arguments(rt: &HostRuntime) -> io::Result<Vec<String>> {
    Ok(env::args(rt)?.collect(rt.alloc())?)
}

// The status where the arguments can't be had.
fn refusal(error: &io::Error) -> u8 {
    match error.kind() {
        ErrorKind::OutOfMemory => WANT_OF_MEMORY,
        _ => ARGUMENTS_REFUSED,
    }
}

fn main(rt: HostRuntime) -> ExitCode {
    let arguments = match arguments(&rt) {
        Ok(arguments) => arguments,
        Err(error) => return ExitCode::from(refusal(&error)),
    };
    let Ok(words) = words_of(rt.alloc(), &arguments) else {
        return ExitCode::from(WANT_OF_MEMORY);
    };
    let mut files = RealFiles::new(&rt);
    let mut out = RealSink::new(rt.stdout());
    let mut err = RealSink::new(rt.stderr());
    run(&rt, rt.alloc(), &words, &mut files, &mut out, &mut err).code
}
