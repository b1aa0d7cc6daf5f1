// Runs over memory that resume.
use crate::alone::flow;
use resume_run::{LevelFault, ResumeReport, ResumeStatus, resume_alone};
use std::alloc::Global;
use std::process::Abort;
use std::test::Fail;
use test_support::{Flow, ends, owned};

/// The front of a text, of so many bytes.
pub fn front<'a>(rt: &impl Abort, text: &'a [u8], len: usize) -> &'a [u8] {
    assert!(rt; len <= text.len());
    let (front, _) = text.split_at(len);
    front
}

/// What a run over this listing tells, and what its sink holds.
pub fn resume(
    alloc: Global,
    listing: &[u8],
    words: &[&str],
    reads: Flow,
    writes: Flow,
) -> Result<(ResumeReport, Vec<u8>), Fail> {
    let (mut source, mut sink) = ends(alloc, listing, reads, writes)?;
    let words = owned(alloc, words)?;
    let report = resume_alone(alloc, &words, &mut source, &mut sink);
    let held = sink.held().to_vec(alloc)?;
    Ok((report, held))
}

/// What a run without faults tells, and what its sink holds.
pub fn resumed(alloc: Global, listing: &[u8], word: &str) -> Result<(ResumeReport, Vec<u8>), Fail> {
    resume(alloc, listing, &[word], flow(4096, 0), flow(4096, 0))
}

/// The run writes this listing, of so many levels.
pub fn goes_on(
    rt: &impl Abort,
    alloc: Global,
    listing: &[u8],
    word: &str,
    levels: u64,
    want: &[u8],
) -> Result<(), Fail> {
    let (report, held) = resumed(alloc, listing, word)?;
    let len = listing.len();
    assert_eq!(rt; report.status, ResumeStatus::Done, "to {word} from {len}");
    assert_eq!(rt; report.levels, levels, "to {word} from {len}");
    assert_eq!(rt; held.as_slice(), want, "to {word} from {len}");
    Ok(())
}

/// The run writes nothing, for this reason.
pub fn refuses_listing(
    rt: &impl Abort,
    alloc: Global,
    listing: &[u8],
    word: &str,
    want: LevelFault,
) -> Result<(), Fail> {
    let (report, held) = resumed(alloc, listing, word)?;
    let len = listing.len();
    assert_eq!(rt; report.status, ResumeStatus::BadListing(want), "of {len}");
    assert_eq!(rt; report.levels, 0);
    assert_eq!(rt; held.len(), 0);
    Ok(())
}
