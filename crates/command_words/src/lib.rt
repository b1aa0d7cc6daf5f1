//! The words of the command line of both programs, read by `clap`: what they ask for, where they are accepted.
#![tactic(auto)]

mod command;
pub mod laws;
mod number;
mod read;

pub use read::{Asked, AskedAlone, read_alone, read_words};
