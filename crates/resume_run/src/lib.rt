//! A run that resumes: it reads a listing that was cut off, checks it by growing its levels anew, and writes the listing of the same
//! request to another size, the levels that it found first.
#![tactic(auto)]

mod listing;
mod resume;
mod size;
mod start;
mod status;

pub use resume::{ResumeReport, resume_alone};
pub use resume_formats::{LevelFault, ResumeStatus};
pub use status::resume_text;
