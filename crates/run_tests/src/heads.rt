// The heads of listings.
use lister::head_text;
use request_reader::read_request;
use std::process::Abort;
use std::test::Fail;

// The listing of a request begins with this head.
fn begins_with(rt: &impl Abort, request: &[u8], head: &[u8]) -> Result<(), Fail> {
    let request = read_request(request).ok().ok_or("no request")?;
    assert_eq!(rt; head_text(&request).as_slice(), head);
    Ok(())
}

#[test]
fn head_of_a_product(rt: HostRuntime) -> Result<(), Fail> {
    let request = b"size 2\nrank 2\nfield 4 x 2 x 9\n";
    begins_with(
        &rt,
        request,
        b"macek listing 1\nversion 1\nfield 4 x 2 x 9\nrank 2\nsize 2\nprint forms\n",
    )
}

#[test]
fn head_with_forbidden_minors(rt: HostRuntime) -> Result<(), Fail> {
    let request = b"forbid U2,10\nrank 2\nforbid F7*\nfield 3\nsize 4\n";
    begins_with(
        &rt,
        request,
        b"macek listing 1\nversion 1\nfield 3\nrank 2\nsize 4\nforbid U2,10\nforbid F7*\nprint forms\n",
    )
}

#[test]
fn head_with_filters(rt: HostRuntime) -> Result<(), Fail> {
    let request =
        b"filter distinct\nfilter has U2,4\nrank 2\nforbid K4\nfilter connected\nfield 5\nsize 5\nfilter 3conn\nfilter cosimple\n";
    begins_with(
        &rt,
        request,
        b"macek listing 1\nversion 1\nfield 5\nrank 2\nsize 5\nforbid K4\nfilter connected\nfilter 3conn\nfilter cosimple\nfilter distinct\nfilter has U2,4\nprint forms\n",
    )
}

#[test]
fn head_of_the_second_version(rt: HostRuntime) -> Result<(), Fail> {
    let request =
        b"version 2\nequivalence semilinear\nrank 2\nforbid matrix 11 10 01 1a\nprint counts\nfilter has matrix 13 1 c\nfield 11 x 9\nsize 4\n";
    begins_with(
        &rt,
        request,
        b"macek listing 1\nversion 2\nfield 11 x 9\nrank 2\nsize 4\nequivalence semilinear\nforbid matrix 11 10 01 1a\nfilter has matrix 13 1 c\nprint counts\n",
    )
}

#[test]
fn head_without_a_line_of_the_linear_equivalence(rt: HostRuntime) -> Result<(), Fail> {
    let request = b"equivalence linear\nrank 2\nfield 3\nsize 4\nprint counts\n";
    begins_with(
        &rt,
        request,
        b"macek listing 1\nversion 1\nfield 3\nrank 2\nsize 4\nprint counts\n",
    )
}
