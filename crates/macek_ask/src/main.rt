//! Answers a question about a represented matroid, which its words ask, on standard output.
#![tactic(auto)]

use ask_run::{AskStatus, ask, ask_text};
use outside::WriteTo;
use std::alloc::AllocError;
use std::env;
use std::io::{ErrorKind, Write};
use std::process::ExitCode;

/// The words of the command line, without the program's name; none where one of them isn't text.
fn words(rt: &HostRuntime) -> Result<Option<Vec<String>>, AllocError> {
    let args = match env::args(rt) {
        Ok(args) => args,
        Err(error) if error.kind() == ErrorKind::OutOfMemory => return Err(AllocError),
        Err(_) => return Ok(None),
    };
    let Ok(words) = args.skip(1).collect(rt.alloc()) else {
        return Err(AllocError);
    };
    Ok(Some(words))
}

/// How asking ended. An error means want of memory for the words.
fn status_of(rt: &HostRuntime) -> Result<AskStatus, AllocError> {
    match words(rt)? {
        Some(words) => Ok(ask(&words, &mut WriteTo::new(rt.stdout()))),
        None => Ok(AskStatus::Usage),
    }
}

fn main(rt: HostRuntime) -> ExitCode {
    match status_of(&rt) {
        Ok(status) => {
            let _ = rt.stderr().write_all(ask_text(&status).as_slice());
            ExitCode::from(status.number())
        }
        Err(_) => {
            let _ = rt.stderr().write_all(b"macek_ask: out of memory\n");
            ExitCode::from(6)
        }
    }
}
