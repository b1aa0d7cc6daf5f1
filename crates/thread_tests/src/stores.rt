// What the store holds after a run.
use crate::ran::{Given, Last, Ran, asked, last_of, new_store, run};
use class_store::NoMemory;
use formats::{Refusal, Status};
use std::alloc::Global;
use std::process::Abort;
use std::sync::Wait;
use std::test::*;
use std::thread::Threads;

/// The request for the binary matroids of rank 3.
pub fn fano_request() -> &'static [u8] {
    b"rank 3\nfield 2\nsize 7\n"
}

/// Their listing.
pub fn fano_listing() -> &'static [u8] {
    b"macek listing 1\n\
version 1\n\
field 2\n\
rank 3\n\
size 7\n\
print forms\n\
level 3 classes 1 listed 1 tried 0\n\
100 010 001\n\
level 4 classes 2 listed 2 tried 4\n\
100 010 001 011\n\
100 010 001 111\n\
level 5 classes 1 listed 1 tried 6\n\
100 010 001 011 101\n\
level 6 classes 1 listed 1 tried 2\n\
100 010 001 011 101 110\n\
level 7 classes 1 listed 1 tried 1\n\
100 010 001 011 101 110 111\n\
end\n"
}

// How many bytes of the listing are those of the head and of so many whole levels.
fn bytes_of_levels(levels: u8) -> usize {
    match levels {
        0 => 60,
        1 => 107,
        2 => 174,
        3 => 229,
        4 => 288,
        _ => 351,
    }
}

// The entries that a level of this size leaves in the store, as many as there are tries.
fn entries_at(size: u8) -> Option<u64> {
    match size {
        3 => Some(0),
        4 => Some(4),
        5 => Some(6),
        6 => Some(2),
        7 => Some(1),
        _ => None,
    }
}

// The keys of the forms of a size: the columns behind the unit columns, two codes to a byte. Nothing goes through the store at size 3.
fn keys_at(size: u8) -> &'static [&'static [u8]] {
    match size {
        4 => &[&[0x01, 0x10], &[0x11, 0x10]],
        5 => &[&[0x01, 0x11, 0x01]],
        6 => &[&[0x01, 0x11, 0x01, 0x11, 0x00]],
        7 => &[&[0x01, 0x11, 0x01, 0x11, 0x01, 0x11]],
        _ => &[],
    }
}

// Whether the last closed level is that of this size.
fn is_of_size(last: &Last, size: u8) -> bool {
    entries_at(size) == Some(last.entries) && are_keys(&last.keys, keys_at(size))
}

fn are_keys(found: &[Vec<u8>], wanted: &[&[u8]]) -> bool {
    let mut alike = found.len() == wanted.len();
    for (key, want) in found.iter().zip(wanted) {
        alike = alike && key.as_slice() == *want;
    }
    alike
}

// A run in a store of its own, and what the store then has.
fn run_anew<R: Threads + Wait + Sync>(
    rt: &R,
    alloc: Global,
    given: Given,
) -> Result<(Ran, Last), NoMemory> {
    let mut store = new_store(alloc)?;
    let ran = run(rt, alloc, &mut store, given)?;
    let last = last_of(alloc, &store)?;
    Ok((ran, last))
}

fn is_kept_after<R: Threads + Wait + Abort + Sync>(
    rt: &R,
    alloc: Global,
    given: Given,
) -> Result<(), Fail> {
    let (ran, last) = run_anew(rt, alloc, given)?;
    assert_eq!(rt; ran.report.status, Status::Done);
    assert_eq!(rt; ran.report.levels, 5);
    assert_eq!(rt; ran.held.as_slice(), fano_listing());
    assert!(rt; is_of_size(&last, 7));
    Ok(())
}

#[test]
fn the_last_level_is_kept(rt: HostRuntime) -> Result<(), Fail> {
    let one = asked(&["--workers", "1"], fano_request());
    let three = asked(&["--workers", "3"], fano_request());
    is_kept_after(&rt, rt.alloc(), one)?;
    is_kept_after(&rt, rt.alloc(), three)?;
    Ok(())
}

// The write that fails, how many levels were written whole before it, how many bytes the sink then holds, and the size of the
// level that was grown last.
fn failed_writes() -> [(u64, u64, usize, u8); 8] {
    [
        (1, 0, 0, 3),
        (3, 0, 95, 3),
        (4, 1, 107, 4),
        (7, 2, 174, 5),
        (8, 2, 209, 5),
        (9, 3, 229, 6),
        (11, 4, 288, 7),
        (13, 5, 351, 7),
    ]
}

// The level behind those that were written whole was grown before its first line failed.
fn is_left_after<R: Threads + Wait + Abort + Sync>(
    rt: &R,
    alloc: Global,
    (write, levels, len, size): (u64, u64, usize, u8),
) -> Result<(), Fail> {
    let given = Given {
        words: &["--workers", "2"],
        text: fano_request(),
        read: 0,
        write,
    };
    let (ran, last) = run_anew(rt, alloc, given)?;
    let listing = fano_listing();
    assert!(rt; len <= listing.len(), "at {write}");
    assert_eq!(rt; ran.report.status, Status::WriteFault, "at {write}");
    assert_eq!(rt; ran.report.levels, levels, "at {write}");
    assert_eq!(rt; ran.held.as_slice(), &listing[..len], "at {write}");
    assert!(rt; is_of_size(&last, size), "at {write}");
    Ok(())
}

#[test]
fn a_failed_write_leaves_the_level_that_was_grown(rt: HostRuntime) -> Result<(), Fail> {
    for row in failed_writes() {
        is_left_after(&rt, rt.alloc(), row)?;
    }
    Ok(())
}

// The second of two runs through one store, and what that has then.
fn run_after<R: Threads + Wait + Sync>(
    rt: &R,
    alloc: Global,
    first: Given,
    given: Given,
) -> Result<(Ran, Last), NoMemory> {
    let mut store = new_store(alloc)?;
    run(rt, alloc, &mut store, first)?;
    let ran = run(rt, alloc, &mut store, given)?;
    let last = last_of(alloc, &store)?;
    Ok((ran, last))
}

// Runs that grow no level, each with the status that it ends in and the levels that it writes.
fn runs_without_growth() -> [(Given<'static>, Status, u64); 6] {
    let plain = asked(&[], fano_request());
    let too_long = asked(&[], b"rank 3\nfield 2\nsize 17\n");
    let flat = asked(&[], b"rank 3\nfield 2\nsize 3\n");
    [
        (asked(&["x"], fano_request()), Status::Usage, 0),
        (Given { read: 1, ..plain }, Status::ReadFault, 0),
        (Given { read: 2, ..plain }, Status::ReadFault, 0),
        (too_long, Status::Refused(Refusal::Size(17)), 0),
        (Given { write: 3, ..plain }, Status::WriteFault, 0),
        (flat, Status::Done, 1),
    ]
}

// A run that grows no level leaves the store with the level of the run before it.
fn leaves_the_store<R: Threads + Wait + Abort + Sync>(
    rt: &R,
    alloc: Global,
    given: Given,
    status: Status,
    levels: u64,
) -> Result<(), Fail> {
    let (ran, last) = run_after(rt, alloc, asked(&[], fano_request()), given)?;
    assert_eq!(rt; ran.report.status, status);
    assert_eq!(rt; ran.report.levels, levels);
    assert!(rt; ran.held.is_empty() || levels == 1 || given.write > 0);
    assert!(rt; is_of_size(&last, 7));
    Ok(())
}

#[test]
fn a_run_without_growth_leaves_the_store(rt: HostRuntime) -> Result<(), Fail> {
    for (given, status, levels) in runs_without_growth() {
        leaves_the_store(&rt, rt.alloc(), given, status, levels)?;
    }
    Ok(())
}

// Whether what was written, and what the store holds, is what the status says, where nothing fails but for want of memory.
fn is_as_its_status_says(ran: &Ran, last: &Last) -> bool {
    let levels = ran.report.levels.min(5) as u8;
    let held = ran.held.as_slice();
    match ran.report.status {
        Status::Done => levels == 5 && held == fano_listing() && is_of_size(last, 7),
        Status::WriteFault => {
            ran.refused && are_whole_pieces(held) && is_of_size(last, (3 + levels).min(7))
        }
        Status::NoMemory if levels == 0 => held.is_empty() && is_of_size(last, 3),
        Status::NoMemory => {
            let grown = is_of_size(last, 3 + levels) || is_of_size(last, 2 + levels);
            are_whole_levels(held, levels) && grown
        }
        _ => false,
    }
}

// Whether this is nothing, or the head of the listing and whole lines behind it.
fn are_whole_pieces(held: &[u8]) -> bool {
    let whole = held.is_empty() || held.len() >= bytes_of_levels(0) && held.ends_with(b"\n");
    whole && fano_listing().starts_with(held)
}

// Whether this is the head of the listing and so many whole levels.
fn are_whole_levels(held: &[u8], levels: u8) -> bool {
    held.len() == bytes_of_levels(levels) && fano_listing().starts_with(held)
}

// Where memory is refused to the test itself there is nothing to be seen. The faults of the gate refuse each allocation in turn.
#[test]
fn any_allocation_may_be_refused(rt: HostRuntime) -> Result<(), Fail> {
    let given = asked(&["--workers", "2"], fano_request());
    if let Ok((ran, last)) = run_anew(&rt, rt.alloc(), given) {
        assert!(rt; is_as_its_status_says(&ran, &last), "{:?}", ran.report);
    }
    Ok(())
}
