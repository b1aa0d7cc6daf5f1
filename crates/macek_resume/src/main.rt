//! Reads a listing, whole or cut off, from standard input, and writes the listing of the same request to the size that its word
//! names to standard output.
#![tactic(auto)]

use outside::{ReadFrom, WriteTo};
use resume_run::{ResumeStatus, resume_alone, resume_text};
use std::env;
use std::io::{ErrorKind, Write};
use std::process::ExitCode;

/// The words of the command line, without the program's name.
fn words(rt: &HostRuntime) -> Result<Vec<String>, ResumeStatus> {
    let args = match env::args(rt) {
        Ok(args) => args,
        Err(error) if error.kind() == ErrorKind::OutOfMemory => return Err(ResumeStatus::NoMemory),
        Err(_) => return Err(ResumeStatus::Usage),
    };
    let Ok(words) = args.skip(1).collect(rt.alloc()) else {
        return Err(ResumeStatus::NoMemory);
    };
    Ok(words)
}

fn status_of(rt: &HostRuntime) -> ResumeStatus {
    match words(rt) {
        Ok(words) => {
            let mut source = ReadFrom::new(rt.stdin());
            let mut sink = WriteTo::new(rt.stdout());
            resume_alone(rt.alloc(), &words, &mut source, &mut sink).status
        }
        Err(status) => status,
    }
}

fn main(rt: HostRuntime) -> ExitCode {
    let status = status_of(&rt);
    let _ = rt.stderr().write_all(resume_text(&status).as_slice());
    ExitCode::from(status.number())
}
