// Whole runs over memory.
use macek_run::{Report, macek_alone};
use std::alloc::Global;
use std::test::Fail;
use test_support::{Flow, ends, owned};

/// At most so many bytes a call, and this call fails, counted from 1 (0: none).
pub fn flow(most: usize, failing: u64) -> Flow {
    Flow { most, failing }
}

/// What a run of these words tells, and what its sink holds.
pub fn run_words(
    alloc: Global,
    words: &[&str],
    request: &[u8],
    reads: Flow,
    writes: Flow,
) -> Result<(Report, Vec<u8>), Fail> {
    let (mut source, mut sink) = ends(alloc, request, reads, writes)?;
    let words = owned(alloc, words)?;
    let report = macek_alone(alloc, &words, &mut source, &mut sink);
    let held = sink.held().to_vec(alloc)?;
    Ok((report, held))
}

/// What a run with no words tells, and what its sink holds.
pub fn run(
    alloc: Global,
    request: &[u8],
    reads: Flow,
    writes: Flow,
) -> Result<(Report, Vec<u8>), Fail> {
    run_words(alloc, &[], request, reads, writes)
}
