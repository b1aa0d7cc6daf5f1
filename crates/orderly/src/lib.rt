//! Orderly generation: the levels of a request, one from the other, with nothing kept but the level itself.
//!
//! The first columns of a form are a form, so each form of a level is a form of the level before, followed by one more column.
//! A candidate is kept exactly where it is its own form. In the order of their parents and columns the kept candidates rise, so
//! nothing is sorted, and nothing is looked up (the principle of orderly generation; forms as in Oxley, *Matroid Theory*, chapter 6).
#![tactic(auto)]

mod keep;
mod level;
mod refusal;

pub use keep::keeps;
pub use level::next_level;
/// Want of memory.
pub use std::alloc::AllocError as NoMemory;
