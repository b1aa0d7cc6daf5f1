// The binary matroids of rank 4, cut off at many places.
use crate::resume::{front, goes_on, refuses_listing, resumed};
use crate::resume_listings::{rank_four_to_eight, rank_four_to_nine, rank_four_without_fano};
use resume_run::{LevelFault, ResumeStatus};
use std::alloc::Global;
use std::process::Abort;
use std::test::Fail;

// The bytes of the head, and of the level that comes first.
const HEAD: usize = 60;

const FIRST_LEVEL: usize = 55;

// The run goes on from the front of so many bytes where it has a level, and else refuses it.
fn goes_on_from(rt: &impl Abort, alloc: Global, len: usize) -> Result<(), Fail> {
    let cut = front(rt, rank_four_to_eight(), len);
    if len < HEAD {
        return refuses_listing(rt, alloc, cut, "9", LevelFault::Head);
    }
    if len < HEAD + FIRST_LEVEL {
        return refuses_listing(rt, alloc, cut, "9", LevelFault::NoLevel);
    }
    goes_on(rt, alloc, cut, "9", 6, rank_four_to_nine())
}

#[test]
fn goes_on_from_each_cut(rt: HostRuntime) -> Result<(), Fail> {
    for place in 0..46 {
        goes_on_from(&rt, rt.alloc(), 19 * place)?;
    }
    Ok(())
}

// The run refuses the text where this byte is another.
fn refuses_other_byte(rt: &impl Abort, alloc: Global, at: usize) -> Result<(), Fail> {
    let mut text = rank_four_to_eight().to_vec(alloc)?;
    assert!(rt; at < text.len());
    text[at] ^= 1;
    let (report, held) = resumed(alloc, &text, "9")?;
    assert!(rt;
        matches!(
            report.status,
            ResumeStatus::BadListing(LevelFault::Differs(_))
        ),
        "at {at}"
    );
    assert_eq!(rt; held.len(), 0);
    Ok(())
}

#[test]
fn refuses_another_byte(rt: HostRuntime) -> Result<(), Fail> {
    for place in 4..46 {
        refuses_other_byte(&rt, rt.alloc(), 19 * place)?;
    }
    Ok(())
}

// The run writes the listing again from the front of so many bytes.
fn keeps(rt: &impl Abort, alloc: Global, len: usize) -> Result<(), Fail> {
    let cut = front(rt, rank_four_without_fano(), len);
    let (report, held) = resumed(alloc, cut, "8")?;
    assert_eq!(rt; report.status, ResumeStatus::Done, "at {len}");
    assert_eq!(rt; held.as_slice(), rank_four_without_fano(), "at {len}");
    Ok(())
}

#[test]
fn keeps_what_is_forbidden(rt: HostRuntime) -> Result<(), Fail> {
    for len in [300, 450, 699] {
        keeps(&rt, rt.alloc(), len)?;
    }
    Ok(())
}
