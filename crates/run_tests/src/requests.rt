// Requests that are read, and texts that are refused.
use formats::{Refusal, Word};
use request_reader::read_request;
use std::process::Abort;
use std::test::Fail;

const GOOD_LINES: &str = "rank 3\n\
\x20 rank\t3  \n\
rank 0\n\
rank 999999999\n\
field 2\n\
field 2 x 3\n\
field 9 x 8 x 7\n\
field 2 x 3 x 4\n\
size 16\n\
print forms\n\
print counts\n\
version 1\n\
version 2\n\
equivalence linear\n\
equivalence semilinear\n\
forbid F7\n\
forbid U2,11\n\
forbid matrix 2 10 01\n\
forbid matrix 9 8\n\
filter connected\n\
filter 3conn\n\
filter cosimple\n\
filter distinct\n\
filter has K5\n\
filter has U2,11\n\
filter has matrix 2 10 01";

const BAD_LINES: &str = "rank 1000000000\n\
rank 99999999999\n\
rank 03\n\
rank +3\n\
rank 3 3\n\
rank\n\
rank3\n\
Rank 3\n\
field 2 x 3 x 4 x 5\n\
field 2 x 3 x 4 x\n\
field 2x3\n\
field 2 x\n\
field 2 3\n\
field 2 X 3\n\
field x 3\n\
field 6\n\
field 1\n\
field 02\n\
field 11\n\
field 16\n\
field\n\
size\n\
print forms forms\n\
print\n\
version 3\n\
version 01\n\
equivalence\n\
equivalence linear semilinear\n\
forbid k4\n\
forbid K4 K5\n\
forbid matrix 2\n\
forbid matrix 2 10 0\n\
forbid matrix 2 10 02\n\
forbid matrix 3 1000000\n\
forbid matrix 6 10 01\n\
forbid matrix 11 1a\n\
filter has\n\
filter has matrix\n\
filter connected 3conn\n\
filter";

// Lines that have one of the forms. What is proved of a test doesn't read them.
fn good_lines() -> &'static str {
    GOOD_LINES
}

// Lines that have none of the forms.
fn bad_lines() -> &'static str {
    BAD_LINES
}

// Whether a line has one of the forms: nothing is wrong with it that makes it a bad line.
fn line_has_form(rt: &impl Abort, line: &str, has_form: bool) {
    let is_bad = matches!(read_request(line.as_bytes()), Err(Refusal::BadLine(1)));
    assert_eq!(rt; is_bad, !has_form, "at {line:?}");
}

#[test]
fn lines_that_have_a_form(rt: HostRuntime) {
    for line in good_lines().split('\n') {
        line_has_form(&rt, line, true);
    }
}

#[test]
fn lines_that_have_no_form(rt: HostRuntime) {
    for line in bad_lines().split('\n') {
        line_has_form(&rt, line, false);
    }
}

// The text is refused for this reason.
fn is_refused(rt: &impl Abort, text: &[u8], why: Refusal) {
    assert_eq!(rt;
        read_request(text).err(),
        Some(why),
        "of {} bytes",
        text.len()
    );
}

// Texts that lack a line, and texts that say one again.
fn missing_or_twice() -> [(&'static [u8], Refusal); 10] {
    [
        (b"", Refusal::Missing(Word::Rank)),
        (b"rank 3\nsize 4\n", Refusal::Missing(Word::Field)),
        (
            b"# a\n \nversion 2\nfield 11 x 13\nforbid matrix 11 1a\n",
            Refusal::Missing(Word::Rank),
        ),
        (b"rank 3\nrank 3\nfield 2\nsize 4\n", Refusal::Twice(2)),
        (b"rank 3\nfield 2\nsize 17\nrank 3\n", Refusal::Twice(4)),
        (
            b"# a\n \nrank 2\nfield 3\nsize 2\nsize 2\n",
            Refusal::Twice(6),
        ),
        (
            b"rank 2\nfield 3\nsize 2\nprint forms\nprint forms\n",
            Refusal::Twice(5),
        ),
        (
            b"equivalence linear\nequivalence semilinear\n",
            Refusal::Twice(2),
        ),
        (b"filter has F7\nfilter has U2,11\n", Refusal::Twice(2)),
        (b"filter has F7\nfilter has F8\n", Refusal::BadLine(2)),
    ]
}

// Texts with a bad line.
fn bad_texts() -> [(&'static [u8], Refusal); 6] {
    [
        (b"rank 03\nfield 2\nsize 4\n", Refusal::BadLine(1)),
        (b"rank 3\nfield 6\nsize 4\n", Refusal::BadLine(2)),
        (b"rank 3\nrank x\n", Refusal::BadLine(2)),
        (b"rank 1\nversion 2\n", Refusal::BadLine(2)),
        (b"version 2\nversion 1\n", Refusal::BadLine(2)),
        (b"version 2\nfield 16\n", Refusal::BadLine(2)),
    ]
}

// Texts that ask for too much.
fn beyond_bounds() -> [(&'static [u8], Refusal); 8] {
    [
        (
            b"rank 3\nfield 2\nsize 4\nforbid F7\nforbid F7\nforbid F7\nforbid F7\nforbid F7\nforbid F7\nforbid F7\nforbid F7\nforbid F7\n",
            Refusal::TooManyForbidden(12),
        ),
        (
            b"rank 3\nfield 2\nsize 4\nforbid U2,11\n",
            Refusal::ForbidTooBig(4),
        ),
        (
            b"forbid matrix 2 1 1 1 1 1 1 1 1 1 1 1\n",
            Refusal::ForbidTooBig(1),
        ),
        (
            b"filter cosimple\nfilter has U2,11\n",
            Refusal::ForbidTooBig(2),
        ),
        (b"rank 7\nfield 2\nsize 7\n", Refusal::Rank(7)),
        (b"rank 3\nfield 2\nsize 2\n", Refusal::Size(2)),
        (
            b"rank 6\nfield 9 x 9 x 9\nsize 6\n",
            Refusal::TooWide(35_598_707_465_734),
        ),
        (
            b"version 2\nrank 6\nfield 11 x 13\nsize 6\n",
            Refusal::TooWide(26_153_569_806),
        ),
    ]
}

#[test]
fn texts_that_are_refused(rt: HostRuntime) {
    for (text, why) in missing_or_twice() {
        is_refused(&rt, text, why);
    }
    for (text, why) in bad_texts() {
        is_refused(&rt, text, why);
    }
    for (text, why) in beyond_bounds() {
        is_refused(&rt, text, why);
    }
}

#[test]
fn long_texts_that_are_refused(rt: HostRuntime) -> Result<(), Fail> {
    let longest = vec![in rt.alloc(); b'#'; 65_536]?;
    is_refused(&rt, &longest, Refusal::Missing(Word::Rank));
    let longer = vec![in rt.alloc(); b'#'; 65_537]?;
    is_refused(&rt, &longer, Refusal::TooLong);
    Ok(())
}

// The text is a request of this rank, size and order of the field.
fn is_accepted(rt: &impl Abort, text: &[u8], rank: u8, size: u8, order: u8) {
    match read_request(text) {
        Ok(request) => {
            assert_eq!(rt; request.rank(), rank);
            assert_eq!(rt; request.size(), size);
            assert_eq!(rt; request.factors().count(), 1);
            assert_eq!(rt; request.factors().field(0).order(), order);
        }
        Err(why) => assert!(rt; false, "{why:?}"),
    }
}

#[test]
fn texts_that_are_accepted(rt: HostRuntime) {
    is_accepted(&rt, b"rank 6\nfield 9\nsize 6\n", 6, 6, 9);
    is_accepted(&rt, b"rank 2\r\nfield 3\nsize 7", 2, 7, 3);
    is_accepted(&rt, b"size 16\nrank 1\nfield 2\n", 1, 16, 2);
    let text = b"\n# a\nversion 2\nrank 3\nfield 13\nsize 5\n";
    is_accepted(&rt, text, 3, 5, 13);
}

#[test]
fn text_with_all_filters(rt: HostRuntime) {
    let text =
        b"filter connected\nfilter 3conn\nrank 3\nfilter cosimple\nfilter has F7-\nfield 3\nfilter distinct\nsize 7\n";
    match read_request(text) {
        Ok(request) => {
            let filters = request.filters();
            assert!(rt; filters.connected && filters.three && filters.cosimple && filters.distinct);
            assert!(rt; filters.has.is_some());
        }
        Err(why) => assert!(rt; false, "{why:?}"),
    }
}
