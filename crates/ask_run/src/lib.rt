//! Questions about one represented matroid, as words, and their answers.
#![tactic(auto)]

mod answer;
mod entry;
mod field;
mod layout;
mod line;
mod question;
mod representation;
mod status;
mod word;

pub use answer::ask;
pub use ask_formats::AskStatus;
pub use status::ask_text;
