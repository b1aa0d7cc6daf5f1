//! What the crates of tests share: the words of a command line, and the two ends of a run over memory.
#![tactic(auto)]

mod flow;
mod words;

pub use flow::{Flow, ends};
pub use words::owned;
