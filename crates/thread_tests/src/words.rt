// The words of runs with workers.
use crate::ran::{Given, new_store, run};
use formats::Status;
use std::alloc::Global;
use std::process::Abort;
use std::sync::Wait;
use std::test::*;
use std::thread::Threads;

// Words that no run takes.
fn refused_words() -> [&'static [&'static str]; 11] {
    [
        &["--workers", "0"],
        &["--workers", "65"],
        &["--workers=65"],
        &["--workers", "1", "--workers", "2"],
        &["--workers", "02"],
        &["--workers"],
        &["--orderly"],
        &["--sample", "16"],
        &["--help"],
        &["--"],
        &["x"],
    ]
}

fn is_refused<R: Threads + Wait + Abort + Sync>(
    rt: &R,
    alloc: Global,
    given: Given,
) -> Result<(), Fail> {
    let mut store = new_store(alloc)?;
    let ran = run(rt, alloc, &mut store, given)?;
    assert_eq!(rt; ran.report.status, Status::Usage, "at {:?}", given.words);
    assert_eq!(rt; ran.report.levels, 0);
    assert_eq!(rt; ran.held.len(), 0);
    Ok(())
}

// The first read would fail, so the source isn't read.
#[test]
fn no_other_words_are_taken(rt: HostRuntime) -> Result<(), Fail> {
    for words in refused_words() {
        let given = Given {
            words,
            text: b"rank 3\nfield 2\nsize 4\n",
            read: 1,
            write: 0,
        };
        is_refused(&rt, rt.alloc(), given)?;
    }
    Ok(())
}
