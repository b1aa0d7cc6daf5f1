// The listings of runs with workers.
use crate::ran::{Given, Ran, asked, new_store, run, run_alone};
use formats::Status;
use std::alloc::Global;
use std::process::Abort;
use std::sync::Wait;
use std::test::*;
use std::thread::Threads;

fn requests() -> [&'static [u8]; 8] {
    [
        b"rank 3\nfield 2\nsize 7\n",
        b"rank 3\nfield 2 x 3\nsize 7\n",
        b"rank 2\nfield 4 x 4\nsize 5\nequivalence semilinear\n",
        b"rank 3\nfield 3\nsize 7\nforbid U2,4\n",
        b"rank 4\nfield 2\nsize 9\nprint counts\n",
        b"rank 2\nfield 7\nsize 8\nfilter distinct\n",
        b"rank 2\nfield 2\nsize 3\nforbid U2,2\n",
        b"rank 2\nfield 3\nsize 2\n",
    ]
}

// The run with these words writes what the run on one thread wrote.
fn is_written_alike<R: Threads + Wait + Abort + Sync>(
    rt: &R,
    alloc: Global,
    given: Given,
    alone: &Ran,
) -> Result<(), Fail> {
    let mut store = new_store(alloc)?;
    let ran = run(rt, alloc, &mut store, given)?;
    assert_eq!(rt; ran.report, alone.report, "at {:?}", given.text);
    assert_eq!(rt;
        ran.held.as_slice(),
        alone.held.as_slice(),
        "at {:?}",
        given.text
    );
    Ok(())
}

fn is_listed_alike<R: Threads + Wait + Abort + Sync>(
    rt: &R,
    alloc: Global,
    text: &'static [u8],
) -> Result<(), Fail> {
    let alone = run_alone(alloc, asked(&[], text))?;
    assert_eq!(rt; alone.report.status, Status::Done);
    is_written_alike(rt, alloc, asked(&["--workers", "1"], text), &alone)?;
    is_written_alike(rt, alloc, asked(&["--workers", "2"], text), &alone)?;
    is_written_alike(rt, alloc, asked(&["--workers", "3"], text), &alone)
}

// Any number of workers writes what the run on one thread writes.
#[test]
fn workers_write_what_one_thread_writes(rt: HostRuntime) -> Result<(), Fail> {
    for text in requests() {
        is_listed_alike(&rt, rt.alloc(), text)?;
    }
    Ok(())
}

fn sample_words() -> [&'static [&'static str]; 3] {
    [
        &["--sample", "4"],
        &["--sample=4", "--workers", "3"],
        &["--workers=1", "--sample", "4"],
    ]
}

#[test]
fn workers_list_a_sample(rt: HostRuntime) -> Result<(), Fail> {
    let alone = run_alone(rt.alloc(), asked(&["--sample", "4"], b""))?;
    assert_eq!(rt; alone.report.status, Status::Done);
    for words in sample_words() {
        is_written_alike(&rt, rt.alloc(), asked(words, b"no request\n"), &alone)?;
    }
    Ok(())
}
