use named_matroids::{NameFault, named};
use std::test::Fail;

fn is(text: &[u8], rank: usize, size: usize, bases: usize) -> bool {
    match named(text) {
        Ok(item) => {
            let minor = item.minor();
            minor.rank() == rank && minor.size() == size && minor.bases().len() == bases
        }
        Err(_) => false,
    }
}

fn is_too_big(text: &[u8]) -> bool {
    matches!(named(text), Err(NameFault::TooBig))
}

fn is_unknown(text: &[u8]) -> bool {
    matches!(named(text), Err(NameFault::Unknown))
}

// Numbers of bases from Oxley's appendix: the triples of 7 points but for 7 lines of F7 and 6 of F7-, the 16 and 125 spanning
// trees of K4 and K5.
#[test]
fn named_matroids(rt: HostRuntime) -> Result<(), Fail> {
    assert!(rt; is(b"K4", 3, 6, 16));
    assert!(rt; is(b"K5", 4, 10, 125));
    assert!(rt; is(b"F7", 3, 7, 28));
    assert!(rt; is(b"F7*", 4, 7, 28));
    assert!(rt; is(b"F7-", 3, 7, 29));
    Ok(())
}

#[test]
fn uniform_matroids(rt: HostRuntime) -> Result<(), Fail> {
    assert!(rt; is(b"U2,4", 2, 4, 6));
    assert!(rt; is(b"U5,10", 5, 10, 252));
    assert!(rt; is(b"U0,1", 0, 1, 1));
    assert!(rt; is_too_big(b"U2,11"));
    Ok(())
}

#[test]
fn other_texts(rt: HostRuntime) -> Result<(), Fail> {
    for text in [
        &b"U5,4"[..],
        b"k4",
        b"U02,4",
        b"U0,0",
        b"",
        b"U2",
        b"U2,1000000000",
    ] {
        assert!(rt; is_unknown(text));
    }
    Ok(())
}
