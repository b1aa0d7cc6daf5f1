// Dual forms.
use crate::answers::{answer, answer_with, has_no_answer};
use ask_run::{AskStatus, ask_text};
use std::alloc::Global;
use std::process::Abort;
use std::test::Fail;

// What is asked, and the whole answer.
fn with_duals() -> [(&'static str, &'static str); 6] {
    [
        (
            "dual 2 100 010 001 011 101 110 111",
            "1000 0100 0010 0001 0111 1011 1101\n",
        ),
        (
            "dual 2 1000 0100 0010 0001 0111 1011 1101",
            "100 010 001 011 101 110 111\n",
        ),
        ("dual 3 10 01 11 12", "10 01 11 12\n"),
        (
            "dual 2 x 3 100 010 001 011 101 110 | 100 010 001 011 101 120",
            "100 010 001 011 101 111 | 100 010 001 011 101 111\n",
        ),
        (
            "dual 2 x 3 100 010 001 011 101 111 | 100 010 001 011 101 111",
            "100 010 001 011 101 111 | 100 010 001 011 101 111\n",
        ),
        ("dual 2 x 3 10 01 11 | 10 01 12", "1 1 1 | 1 1 1\n"),
    ]
}

// The words are answered by this text.
fn has_answer(rt: &impl Abort, alloc: Global, words: &str, text: &str) -> Result<(), Fail> {
    let (status, held) = answer(alloc, words)?;
    assert_eq!(rt; status, AskStatus::Done, "at {words:?}");
    assert_eq!(rt; held.as_slice(), text.as_bytes(), "at {words:?}");
    Ok(())
}

#[test]
fn dual_forms(rt: HostRuntime) -> Result<(), Fail> {
    for (words, text) in with_duals() {
        has_answer(&rt, rt.alloc(), words, text)?;
    }
    Ok(())
}

fn without_dual() -> [&'static str; 16] {
    [
        "dual 2 100 010 001",
        "dual 2 010 100 001 011",
        "dual 2 x 3 10 01 11 | 10 01 10",
        "dual 2 10 01 12",
        "",
        "dual",
        "dual 2",
        "dual 2 x",
        "dual 6 10 01 11",
        "dual 2 x 2 x 2 x 2 1 1 | 1 1 | 1 1 | 1 1",
        "dual 2 x 3 10 01 11",
        "dual 2 x 3 10 01 11 | 10 01",
        "dual 2 10 01 1",
        "dual 2 10 01 11 |",
        "dual 2 1 1 1 1 1 1 1 1",
        "twice 2 10 01 11",
    ]
}

#[test]
fn words_that_ask_for_no_dual(rt: HostRuntime) -> Result<(), Fail> {
    for words in without_dual() {
        has_no_answer(&rt, rt.alloc(), words)?;
    }
    Ok(())
}

#[test]
fn a_dual_for_a_sink_that_fails(rt: HostRuntime) -> Result<(), Fail> {
    let (status, held) = answer_with(rt.alloc(), "dual 3 10 01 11 12", 1)?;
    assert_eq!(rt; status, AskStatus::WriteFault);
    assert_eq!(rt; held.len(), 0);
    Ok(())
}

// The status has this text and this number.
fn has_text(rt: &impl Abort, status: AskStatus, text: &str, number: u8) {
    assert_eq!(rt; ask_text(&status).as_slice(), text.as_bytes());
    assert_eq!(rt; status.number(), number);
}

#[test]
fn texts_and_numbers(rt: HostRuntime) {
    has_text(&rt, AskStatus::Done, "", 0);
    let usage = "macek_ask: usage: dual FIELD FORM, over Q name M, over Q form FIELD FORM\n";
    has_text(&rt, AskStatus::Usage, usage, 2);
    let unwritten = "macek_ask: the answer could not be written\n";
    has_text(&rt, AskStatus::WriteFault, unwritten, 5);
}
