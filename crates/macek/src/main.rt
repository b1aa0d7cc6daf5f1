//! Reads a request from standard input and writes its listing to standard output, with levels grown by several workers.
#![tactic(auto)]

use class_store::ClassStore;
use formats::Status;
use lister::refusal_text;
use macek_workers::macek as run;
use outside::{OpenGate, ReadFrom, Sink, Source, WriteTo};
use std::alloc::Global;
use std::env;
use std::io::{ErrorKind, Write};
use std::process::ExitCode;
use std::sync::Wait;
use std::thread::Threads;

/// The number of stripes of the store.
const STRIPES: usize = 16;

/// The words of the command line, without the program's name.
fn words(rt: &HostRuntime) -> Result<Vec<String>, Status> {
    let args = match env::args(rt) {
        Ok(args) => args,
        Err(error) if error.kind() == ErrorKind::OutOfMemory => return Err(Status::NoMemory),
        Err(_) => return Err(Status::Usage),
    };
    let Ok(words) = args.skip(1).collect(rt.alloc()) else {
        return Err(Status::NoMemory);
    };
    Ok(words)
}

/// Writes the listing that the words ask for, with a store of its own.
fn list<R: Threads + Wait + Sync, S: Source, K: Sink>(
    rt: &R,
    alloc: Global,
    words: &[String],
    source: &mut S,
    sink: &mut K,
) -> Status {
    let Ok(mut store) = ClassStore::new(alloc, STRIPES) else {
        return Status::NoMemory;
    };
    run(rt, alloc, words, source, sink, &mut store, &OpenGate).status
}

fn main(rt: HostRuntime) -> ExitCode {
    let status = match words(&rt) {
        Ok(words) => {
            let mut source = ReadFrom::new(rt.stdin());
            let mut sink = WriteTo::new(rt.stdout());
            list(&rt, rt.alloc(), &words, &mut source, &mut sink)
        }
        Err(status) => status,
    };
    let _ = rt.stderr().write_all(refusal_text(&status).as_slice());
    ExitCode::from(status.number())
}
