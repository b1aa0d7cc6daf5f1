//! The set that many callers share, as one thread sees it, and the histories of their calls.
//!
//! A history is a list of entries. It is legal where each reply is the set's after the entries before it, and each
//! caller's calls are numbered 0, 1, 2 and so on. [`laws`] says what is so of every legal history.
#![tactic(auto)]

mod entry;
pub mod laws;

pub use entry::{Entry, Reply};
