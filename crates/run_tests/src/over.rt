// Representations over another field.
use crate::answers::{answer_with, has_no_answer, is_answered};
use ask_run::AskStatus;
use std::test::Fail;

// The four-point line isn't binary, and a line over a field has one point more than the field; the Fano matroid has matrices in
// characteristic 2 alone, the non-Fano matroid in every other (Oxley, chapter 6 and appendix).
fn named() -> [(&'static str, &'static str); 13] {
    [
        ("over 2 name U2,4", "none"),
        ("over 3 name U2,4", "10 01 11 12"),
        ("over 3 name F7", "none"),
        ("over 4 name F7", "100 010 001 011 101 110 111"),
        ("over 2 name F7-", "none"),
        ("over 5 name F7-", "100 010 001 011 101 110 111"),
        ("over 4 name U2,5", "10 01 11 12 13"),
        ("over 5 name U2,7", "none"),
        ("over 7 name U2,8", "10 01 11 12 13 14 15 16"),
        ("over 11 name U2,10", "10 01 11 12 13 14 15 16 17 18"),
        ("over 8 name F7-", "none"),
        ("over 13 name F7", "none"),
        ("over 3 name K4", "100 010 001 011 101 120"),
    ]
}

#[test]
fn matroids_by_name(rt: HostRuntime) -> Result<(), Fail> {
    for (words, line) in named() {
        is_answered(&rt, rt.alloc(), words, line)?;
    }
    Ok(())
}

// Independent sets of every rank; the dual of the Fano matroid, whose matrix is that of its complements; and the complete graph
// on five vertices, whose edges are differences of unit columns over a field where 2 isn't 0.
fn of_every_rank() -> [(&'static str, &'static str); 7] {
    [
        ("over 2 name U1,1", "1"),
        ("over 2 name U1,3", "1 1 1"),
        (
            "over 13 name U6,6",
            "100000 010000 001000 000100 000010 000001",
        ),
        ("over 2 name U5,6", "10000 01000 00100 00010 00001 11111"),
        ("over 2 name F7*", "1000 0100 0010 0001 1101 1011 1110"),
        ("over 3 name F7*", "none"),
        (
            "over 3 name K5",
            "1000 0100 0010 0001 1100 1010 1001 0120 0102 0012",
        ),
    ]
}

#[test]
fn names_of_every_rank(rt: HostRuntime) -> Result<(), Fail> {
    for (words, line) in of_every_rank() {
        is_answered(&rt, rt.alloc(), words, line)?;
    }
    Ok(())
}

// The matroid of a representation: that of a graph; one with as many columns as rows; one over a product; one with a loop and two
// elements that are parallel; and seven points of a line, of which a field of five elements has six.
fn of_forms() -> [(&'static str, &'static str); 6] {
    [
        (
            "over 3 form 2 100 010 001 011 101 110",
            "100 010 001 011 101 120",
        ),
        ("over 3 form 2 100 010 001", "100 010 001"),
        ("over 4 form 2 x 3 10 01 11 | 10 01 12", "10 01 11"),
        ("over 3 form 2 10 01 00 10", "10 01 00 10"),
        ("over 5 form 7 10 01 11 12 13 14 15", "none"),
        ("over 11 form 13 10 01 11 1c", "10 01 11 12"),
    ]
}

#[test]
fn matroids_of_forms(rt: HostRuntime) -> Result<(), Fail> {
    for (words, line) in of_forms() {
        is_answered(&rt, rt.alloc(), words, line)?;
    }
    Ok(())
}

fn without_answer() -> [&'static str; 21] {
    [
        "over 6 name F7",
        "over 2 name U0,3",
        "over 2 name U7,8",
        "over 2 name U2,11",
        "over 2 form 2",
        "over 2",
        "over",
        "over 2 name",
        "over 2 name F7 F7",
        "over 2 name f7",
        "over 02 name F7",
        "over 2 x 3 name F7",
        "over 2 F7",
        "over 2 matrix 2 10 01 11",
        "over 2 name matrix 2 10 01 11",
        "over 2 form F7",
        "over 2 form 2 010 100 001",
        "over 2 form 2 x 3 10 01 11 | 10 01 10",
        "over 2 form 6 10 01 11",
        "over 2 form 2 10 01 12",
        "name F7",
    ]
}

#[test]
fn words_that_ask_nothing(rt: HostRuntime) -> Result<(), Fail> {
    for words in without_answer() {
        has_no_answer(&rt, rt.alloc(), words)?;
    }
    Ok(())
}

#[test]
fn a_matrix_for_a_sink_that_fails(rt: HostRuntime) -> Result<(), Fail> {
    let (status, held) = answer_with(rt.alloc(), "over 2 name U2,4", 1)?;
    assert_eq!(rt; status, AskStatus::WriteFault);
    assert_eq!(rt; held.len(), 0);
    Ok(())
}
