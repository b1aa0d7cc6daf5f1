// The binary matroids of rank 3.
use crate::alone::flow;
use crate::listings::{binary_to_four, binary_to_seven};
use crate::resume::{front, goes_on, refuses_listing, resume};
use crate::resume_listings::{binary_counts, binary_to_five};
use level_file::{Start, read_level};
use resume_run::{LevelFault, ResumeStatus};
use std::alloc::Global;
use std::process::Abort;
use std::test::Fail;

// The text with the part between two places taken out.
fn without(
    rt: &impl Abort,
    alloc: Global,
    text: &[u8],
    from: usize,
    to: usize,
) -> Result<Vec<u8>, Fail> {
    assert!(rt; from <= to && to <= text.len());
    let mut left = Vec::new(alloc);
    let (before, _) = text.split_at(from);
    let (_, after) = text.split_at(to);
    left.extend_from_slice(before)?;
    left.extend_from_slice(after)?;
    Ok(left)
}

// The text with another byte at this place, where this byte stands.
fn with_byte(
    rt: &impl Abort,
    alloc: Global,
    text: &[u8],
    at: usize,
    byte: u8,
) -> Result<Vec<u8>, Fail> {
    let mut other = text.to_vec(alloc)?;
    assert!(rt; at < other.len());
    other[at] = byte;
    Ok(other)
}

#[test]
fn goes_on_from_a_listing(rt: HostRuntime) -> Result<(), Fail> {
    let alloc = rt.alloc();
    goes_on(&rt, alloc, binary_to_four(), "5", 3, binary_to_five())?;
    goes_on(&rt, alloc, binary_to_four(), "4", 2, binary_to_four())?;
    goes_on(&rt, alloc, binary_to_four(), "7", 5, binary_to_seven())
}

#[test]
fn goes_on_from_a_front(rt: HostRuntime) -> Result<(), Fail> {
    let alloc = rt.alloc();
    let cut = front(&rt, binary_to_four(), 171);
    goes_on(&rt, alloc, cut, "5", 3, binary_to_five())?;
    let cut = front(&rt, binary_to_seven(), 174);
    goes_on(&rt, alloc, cut, "7", 5, binary_to_seven())?;
    let cut = front(&rt, binary_to_seven(), 107);
    goes_on(&rt, alloc, cut, "4", 2, binary_to_four())
}

#[test]
fn refuses_changed_texts(rt: HostRuntime) -> Result<(), Fail> {
    let alloc = rt.alloc();
    let text = binary_to_four();
    assert_eq!(rt; text.len(), 178);
    refuses_listing(&rt, alloc, text, "3", LevelFault::Less(4))?;
    let without_a_form = without(&rt, alloc, text, 158, 174)?;
    refuses_listing(&rt, alloc, &without_a_form, "5", LevelFault::Differs(11))?;
    assert_eq!(rt; text[123], b'2');
    let other_line = with_byte(&rt, alloc, text, 123, b'1')?;
    let other_line = with_byte(&rt, alloc, &other_line, 132, b'1')?;
    refuses_listing(&rt, alloc, &other_line, "5", LevelFault::Differs(9))?;
    let mut longer = text.to_vec(alloc)?;
    longer.extend_from_slice(b"end\n")?;
    refuses_listing(&rt, alloc, &longer, "5", LevelFault::Differs(13))
}

#[test]
fn refuses_texts_with_no_level(rt: HostRuntime) -> Result<(), Fail> {
    let alloc = rt.alloc();
    let head = front(&rt, binary_to_four(), 60);
    refuses_listing(&rt, alloc, head, "5", LevelFault::NoLevel)?;
    let cut = front(&rt, binary_to_four(), 59);
    refuses_listing(&rt, alloc, cut, "5", LevelFault::Head)?;
    refuses_listing(&rt, alloc, b"", "5", LevelFault::Head)?;
    refuses_listing(&rt, alloc, binary_counts(), "15", LevelFault::Head)?;
    let long = vec![in alloc; b'#'; 16_777_217]?;
    refuses_listing(&rt, alloc, &long, "5", LevelFault::TooLong)
}

// The run doesn't know the words, and writes nothing.
fn knows_not(rt: &impl Abort, alloc: Global, words: &[&str]) -> Result<(), Fail> {
    let (report, held) = resume(alloc, binary_to_four(), words, flow(4096, 0), flow(4096, 0))?;
    assert_eq!(rt; report.status, ResumeStatus::Usage, "at {words:?}");
    assert_eq!(rt; report.levels, 0);
    assert_eq!(rt; held.len(), 0);
    Ok(())
}

// Words that name no size.
fn other_words() -> [&'static [&'static str]; 9] {
    [
        &["17"],
        &[],
        &["0"],
        &["05"],
        &[""],
        &["5 "],
        &["x"],
        &["5", "5"],
        &["--size", "5"],
    ]
}

#[test]
fn refuses_other_words(rt: HostRuntime) -> Result<(), Fail> {
    for words in other_words() {
        knows_not(&rt, rt.alloc(), words)?;
    }
    Ok(())
}

#[test]
fn reads_the_levels(rt: HostRuntime) -> Result<(), Fail> {
    let cut = front(&rt, binary_to_seven(), 174);
    let Start { request, levels } = read_level(rt.alloc(), cut).ok().ok_or("refused")?;
    assert_eq!(rt; request.rank(), 3);
    assert_eq!(rt; request.size(), 7);
    assert_eq!(rt; levels.len(), 2);
    assert_eq!(rt; levels.get(0).map(|level| level.forms.len()), Some(1));
    assert_eq!(rt; levels.get(1).map(|level| level.forms.len()), Some(2));
    assert!(rt; levels.get(2).is_none());
    Ok(())
}
