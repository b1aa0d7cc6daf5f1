//! Reads a listing, whole or cut off, by growing its levels anew and comparing each piece with the text. Nothing in the text
//! is trusted.
#![tactic(auto)]

mod compare;
mod head;
mod levels;
mod read;

pub use level_driver::LevelList;
pub use read::{Start, StartFault, read_level};
pub use resume_formats::LevelFault;
