// The words of the command line.
use command_words::laws::{alone_names_no_workers, one_reading};
use command_words::{Asked, AskedAlone, read_alone, read_words};
use std::alloc::Global;
use std::process::Abort;
use std::test::Fail;
use test_support::owned;

// The words of a command line.
type Words = &'static [&'static str];

// These words are read as this.
fn reads(rt: &impl Abort, alloc: Global, words: &[&str], asked: Option<Asked>) -> Result<(), Fail> {
    let owned = owned(alloc, words)?;
    assert_eq!(rt; read_words(alloc, &owned)?, asked, "at {words:?}");
    Ok(())
}

// These words are read as this where there are no workers.
fn reads_alone(
    rt: &impl Abort,
    alloc: Global,
    words: &[&str],
    asked: Option<AskedAlone>,
) -> Result<(), Fail> {
    let owned = owned(alloc, words)?;
    assert_eq!(rt; read_alone(alloc, &owned)?, asked, "at {words:?}");
    Ok(())
}

// Words with the numbers of workers and of the sample.
fn accepted() -> [(Words, Option<u32>, Option<u8>); 5] {
    [
        (&[], None, None),
        (&["--workers", "64"], Some(64), None),
        (&["--workers=2"], Some(2), None),
        (&["--sample=0", "--workers=1"], Some(1), Some(0)),
        (&["--workers", "3", "--sample", "15"], Some(3), Some(15)),
    ]
}

// Words with the number of the sample, and whether the way is orderly.
fn accepted_alone() -> [(Words, Option<u8>, bool); 6] {
    [
        (&[], None, false),
        (&["--sample", "4"], Some(4), false),
        (&["--sample=15"], Some(15), false),
        (&["--orderly"], None, true),
        (&["--orderly", "--sample", "4"], Some(4), true),
        (&["--sample=4", "--orderly"], Some(4), true),
    ]
}

// Words with numbers that are out of bounds or not written as numbers are, and names that aren't whole.
fn refused_numbers() -> [Words; 13] {
    [
        &["--workers", "0"],
        &["--workers", "65"],
        &["--workers"],
        &["--workers="],
        &["--workers", ""],
        &["--workers", "04"],
        &["--workers", "+4"],
        &["--workers", "-4"],
        &["--workers", "4 "],
        &["--work", "4"],
        &["--Workers", "4"],
        &["-workers", "4"],
        &["-w", "4"],
    ]
}

// Words that are one too many, or too few, or unknown.
fn refused_words() -> [Words; 22] {
    [
        &["--workers", "4", "--workers", "4"],
        &["--workers", "2", "--workers=2"],
        &["--workers", "--sample", "4"],
        &["--workers", "4", "5"],
        &["--sample", "16"],
        &["--sample", "4294967296"],
        &["--"],
        &["--", "--workers", "4"],
        &["--workers", "4", "--"],
        &["--workers", "--", "4"],
        &["--help"],
        &["-h"],
        &["--version"],
        &["-V"],
        &["help"],
        &["x"],
        &["4"],
        &[""],
        &["-"],
        &["--orderly"],
        &["--workers", "2", "--orderly"],
        &["--orderly=1"],
    ]
}

// Words that are refused where there are no workers.
fn refused_alone() -> [Words; 16] {
    [
        &["--sample=16"],
        &["--workers", "2"],
        &["--sample=4", "--workers=2"],
        &["--orderly", "--workers=2"],
        &["--orderly", "--orderly"],
        &["--orderly", "--sample=4", "--orderly"],
        &["--orderly=1"],
        &["--orderly="],
        &["--orderly", "x"],
        &["--orderly", ""],
        &["--order"],
        &["-orderly"],
        &["-o"],
        &["--sample", "--orderly"],
        &["--orderly", "--"],
        &["--"],
    ]
}

#[test]
fn words_that_macek_accepts(rt: HostRuntime) -> Result<(), Fail> {
    one_reading();
    for (words, workers, sample) in accepted() {
        let asked = Some(Asked { workers, sample });
        reads(&rt, rt.alloc(), words, asked)?;
    }
    Ok(())
}

#[test]
fn words_that_macek_refuses(rt: HostRuntime) -> Result<(), Fail> {
    for words in refused_numbers() {
        reads(&rt, rt.alloc(), words, None)?;
    }
    for words in refused_words() {
        reads(&rt, rt.alloc(), words, None)?;
    }
    Ok(())
}

#[test]
fn words_that_macek_alone_accepts(rt: HostRuntime) -> Result<(), Fail> {
    alone_names_no_workers();
    for (words, sample, orderly) in accepted_alone() {
        let asked = Some(AskedAlone { sample, orderly });
        reads_alone(&rt, rt.alloc(), words, asked)?;
    }
    Ok(())
}

#[test]
fn words_that_macek_alone_refuses(rt: HostRuntime) -> Result<(), Fail> {
    for words in refused_alone() {
        reads_alone(&rt, rt.alloc(), words, None)?;
    }
    Ok(())
}
