//! A pool of numbers in stealing deques: workers take each number once, however they steal from one another.
#![tactic(auto)]

mod closing;
mod filling;
mod giving_back;
mod next;
mod opening;
mod seat;
mod seating;
mod shift;
mod taken;
mod taking;

pub use closing::finish;
pub use opening::fill;
pub use shift::Shift;
pub use std::alloc::AllocError as NoMemory;
pub use taken::Taken;
