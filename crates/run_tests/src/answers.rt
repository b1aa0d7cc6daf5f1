// Words that ask, what a sink over memory holds of the answer, and listings to ask about.
use crate::alone::{flow, run};
use ask_run::{AskStatus, ask};
use outside::MemorySink;
use std::alloc::{AllocError, Global};
use std::process::Abort;
use std::test::Fail;

/// The words of a text, with one space between two.
pub fn words_of(alloc: Global, text: &str) -> Result<Vec<String>, AllocError> {
    let mut words = Vec::new(alloc);
    if text.is_empty() {
        return Ok(words);
    }
    for word in text.split(' ') {
        words.push(String::from_str(alloc, word)?)?;
    }
    Ok(words)
}

/// What the words are answered, where a call of the sink fails (0: none).
pub fn answer_with(alloc: Global, text: &str, failing: u64) -> Result<(AskStatus, Vec<u8>), Fail> {
    let words = words_of(alloc, text)?;
    let mut sink = MemorySink::new(alloc, 1000, vec![in alloc; failing]?);
    let status = ask(&words, &mut sink);
    let held = sink.held().to_vec(alloc)?;
    Ok((status, held))
}

/// What the words are answered.
pub fn answer(alloc: Global, text: &str) -> Result<(AskStatus, Vec<u8>), Fail> {
    answer_with(alloc, text, 0)
}

/// The words ask for nothing that can be answered, and get no answer.
pub fn has_no_answer(rt: &impl Abort, alloc: Global, text: &str) -> Result<(), Fail> {
    let (status, held) = answer(alloc, text)?;
    assert_eq!(rt; status, AskStatus::Usage, "at {text:?}");
    assert_eq!(rt; held.len(), 0, "at {text:?}");
    Ok(())
}

/// The line that the words are answered, without its end.
pub fn line_for(rt: &impl Abort, alloc: Global, text: &str) -> Result<String, Fail> {
    let (status, held) = answer(alloc, text)?;
    assert_eq!(rt; status, AskStatus::Done, "at {text:?}");
    let line = str::from_utf8(&held).ok().ok_or("not a text")?;
    Ok(String::from_str(alloc, line.trim_end())?)
}

/// The words are answered by this line.
pub fn is_answered(rt: &impl Abort, alloc: Global, text: &str, line: &str) -> Result<(), Fail> {
    let answered = line_for(rt, alloc, text)?;
    assert_eq!(rt; answered.as_str(), line, "at {text:?}");
    Ok(())
}

/// The listing of a request.
pub fn listing(alloc: Global, request: &[u8]) -> Result<Vec<u8>, Fail> {
    let (_report, held) = run(alloc, request, flow(1000, 0), flow(1000, 0))?;
    Ok(held)
}
