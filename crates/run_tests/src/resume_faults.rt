// Reads and writes that fail in runs that resume, and what is told of how a run ended.
use crate::alone::flow;
use crate::listings::binary_to_four;
use crate::resume::resume;
use crate::resume_listings::binary_to_five;
use resume_run::{LevelFault, ResumeStatus, resume_text};
use std::alloc::Global;
use std::process::Abort;
use std::test::Fail;
use test_support::Flow;

// How a run ends: its status, and the numbers of the levels and of the bytes that it wrote.
type Ended = (ResumeStatus, u64, usize);

// The run writes the front of the listing to size 5, and ends so.
fn ends_so(
    rt: &impl Abort,
    alloc: Global,
    reads: Flow,
    writes: Flow,
    ended: Ended,
) -> Result<(), Fail> {
    let (status, levels, len) = ended;
    let (report, held) = resume(alloc, binary_to_four(), &["5"], reads, writes)?;
    assert_eq!(rt; report.status, status, "at {len}");
    assert_eq!(rt; report.levels, levels, "at {len}");
    assert_eq!(rt; held.len(), len);
    assert!(rt; binary_to_five().starts_with(&held));
    Ok(())
}

// A run stops at a fault of the sink, after so many levels and bytes.
fn unwritten(levels: u64, len: usize) -> Ended {
    (ResumeStatus::WriteFault, levels, len)
}

// How the source and the sink go on, and how the run ends.
fn resume_faults() -> [(Flow, Flow, Ended); 12] {
    let whole = flow(4096, 0);
    let done = (ResumeStatus::Done, 3, 233);
    let unread = (ResumeStatus::ReadFault, 0, 0);
    [
        (flow(4096, 1), whole, unread),
        (flow(1, 100), whole, unread),
        (flow(1, 179), whole, unread),
        (flow(1, 180), whole, done),
        (whole, flow(4096, 1), unwritten(0, 0)),
        (whole, flow(4096, 2), unwritten(0, 60)),
        (whole, flow(4096, 4), unwritten(1, 107)),
        (whole, flow(4096, 6), unwritten(1, 158)),
        (whole, flow(4096, 7), unwritten(2, 174)),
        (whole, flow(4096, 9), unwritten(3, 229)),
        (whole, flow(1, 233), unwritten(3, 232)),
        (whole, flow(1, 234), done),
    ]
}

#[test]
fn resuming_stops_at_a_fault(rt: HostRuntime) -> Result<(), Fail> {
    for (reads, writes, ended) in resume_faults() {
        ends_so(&rt, rt.alloc(), reads, writes, ended)?;
    }
    Ok(())
}

// A text that is refused is refused before anything fails at the sink, and a fault of the source before the text is looked at.
#[test]
fn blames_what_is_at_fault(rt: HostRuntime) -> Result<(), Fail> {
    let alloc = rt.alloc();
    let (report, held) = resume(alloc, b"end\n", &["5"], flow(1, 0), flow(1, 1))?;
    assert_eq!(rt; report.status.number(), 3);
    assert_eq!(rt; held.len(), 0);
    let (report, held) = resume(alloc, b"end\n", &["5"], flow(1, 2), flow(1, 1))?;
    assert_eq!(rt; report.status, ResumeStatus::ReadFault);
    assert_eq!(rt; held.len(), 0);
    Ok(())
}

// The status has this number and this text.
fn is_told(rt: &impl Abort, status: ResumeStatus, number: u8, text: &str) {
    assert_eq!(rt; status.number(), number);
    assert_eq!(rt; resume_text(&status).as_slice(), text.as_bytes());
}

// A listing that is refused for this reason has this text.
fn bad_is_told(rt: &impl Abort, fault: LevelFault, text: &str) {
    is_told(rt, ResumeStatus::BadListing(fault), 3, text);
}

#[test]
fn tells_each_status(rt: HostRuntime) {
    is_told(&rt, ResumeStatus::Done, 0, "");
    is_told(&rt, ResumeStatus::Usage, 2, "macek_resume: usage: N\n");
    let text = "macek_resume: the listing could not be read\n";
    is_told(&rt, ResumeStatus::ReadFault, 4, text);
    let text = "macek_resume: the listing could not be written\n";
    is_told(&rt, ResumeStatus::WriteFault, 5, text);
    let text = "macek_resume: out of memory\n";
    is_told(&rt, ResumeStatus::NoMemory, 6, text);
}

#[test]
fn tells_each_fault_of_a_listing(rt: HostRuntime) {
    let text = "macek_resume: listing refused 1\n";
    bad_is_told(&rt, LevelFault::TooLong, text);
    let text = "macek_resume: listing refused 2\n";
    bad_is_told(&rt, LevelFault::Head, text);
    let text = "macek_resume: listing refused 3\n";
    bad_is_told(&rt, LevelFault::Differs(7), text);
    let text = "macek_resume: listing refused 4\n";
    bad_is_told(&rt, LevelFault::NoLevel, text);
    let text = "macek_resume: listing refused 5\n";
    bad_is_told(&rt, LevelFault::Less(4), text);
}
