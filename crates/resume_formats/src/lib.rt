//! Cut listings and their faults, as definitions that the contracts of a run that resumes cite, and the plain types that
//! they speak of.
#![tactic(auto)]

mod fault;
pub mod laws;
mod status;

pub use fault::LevelFault;
pub use status::ResumeStatus;
