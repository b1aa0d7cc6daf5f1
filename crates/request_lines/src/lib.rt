//! Cuts a request into lines, a line into words, and says what one line asks for.
#![tactic(auto)]

mod cut;
mod field_line;
mod flags;
mod keyword;
mod line;
mod matrix_line;
mod version;

pub use cut::{is_skipped_line, next_line};
pub use flags::{Filter, Flag};
pub use line::{NamedMinor, Said, said_by};
pub use version::{Version, version_of};
