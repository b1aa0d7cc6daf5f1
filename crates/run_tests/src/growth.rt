// Levels, one grown from the other.
use level_driver::{first_level, grow_alone, listed, passes};
use request_reader::read_request;
use std::alloc::Global;
use std::process::Abort;
use std::test::Fail;

// The number of forms, of those that are listed, and of tries of each size that the request asks for.
fn counts(alloc: Global, text: &str) -> Result<Vec<(usize, usize, u128)>, Fail> {
    let request = read_request(text.as_bytes()).ok().ok_or("refused")?;
    let mut level = first_level(alloc, &request)?;
    let mut counts = Vec::new(alloc);
    let shown = listed(alloc, &request, &level.forms)?.len();
    counts.push((level.forms.len(), shown, level.tried))?;
    for _ in request.rank()..request.size() {
        level = grow_alone(alloc, &request, &level.forms)?;
        let shown = listed(alloc, &request, &level.forms)?.len();
        counts.push((level.forms.len(), shown, level.tried))?;
    }
    Ok(counts)
}

// Requests, and the numbers of each of their sizes.
fn sizes() -> [(&'static str, &'static [(usize, usize, u128)]); 6] {
    [
        (
            "rank 3\nfield 2\nsize 7\n",
            &[(1, 1, 0), (2, 2, 4), (1, 1, 6), (1, 1, 2), (1, 1, 1)],
        ),
        (
            "rank 3\nfield 2 x 3\nsize 7\n",
            &[(1, 1, 0), (2, 2, 10), (1, 1, 9), (1, 1, 2), (0, 0, 0)],
        ),
        (
            "rank 2\nfield 4 x 4\nsize 5\n",
            &[(1, 1, 0), (1, 1, 9), (2, 2, 4), (2, 2, 2)],
        ),
        (
            "rank 3\nfield 2\nsize 7\nfilter 3conn\n",
            &[(1, 0, 0), (2, 0, 4), (1, 0, 6), (1, 1, 2), (1, 1, 1)],
        ),
        (
            "rank 3\nfield 2\nsize 7\nfilter has K4\n",
            &[(1, 0, 0), (2, 0, 4), (1, 0, 6), (1, 1, 2), (1, 1, 1)],
        ),
        (
            "rank 2\nfield 7\nsize 4\nfilter distinct\n",
            &[(1, 1, 0), (1, 1, 6), (2, 1, 5)],
        ),
    ]
}

// The request asks for these numbers.
fn counted(
    rt: &impl Abort,
    alloc: Global,
    text: &str,
    want: &[(usize, usize, u128)],
) -> Result<(), Fail> {
    assert_eq!(rt; counts(alloc, text)?.as_slice(), want, "at {text:?}");
    Ok(())
}

#[test]
fn forms_and_tries_of_each_size(rt: HostRuntime) -> Result<(), Fail> {
    for (text, want) in sizes() {
        counted(&rt, rt.alloc(), text, want)?;
    }
    Ok(())
}

// The least form of each size is listed, and a place past the last form has none.
#[test]
fn forms_by_their_places(rt: HostRuntime) -> Result<(), Fail> {
    let request = read_request(b"rank 2\nfield 3\nsize 2\n")
        .ok()
        .ok_or("refused")?;
    let level = first_level(rt.alloc(), &request)?;
    assert!(rt; level.forms.get(0).is_some());
    assert!(rt; level.forms.get(1).is_none());
    if level.forms.len() > 0 {
        assert!(rt; passes(rt.alloc(), &request, &level.forms, 0)?);
    }
    Ok(())
}
