//! The lock of the stripes of a level: each stripe is had by one caller at a time.
//!
//! There is one table for all stripes of a level, over the kit's `atomic_table`, with a word and a slot for each stripe. A stripe lies
//! in its slot while its word is 0, and its holder has it while the word is 1. The rule also says of which table the book in
//! each slot is, which no type could say.
#![tactic(auto)]

mod opened;
mod rule;
mod stripe;
mod turn;
mod turns;

pub use opened::open_turns;
pub use std::alloc::AllocError as NoMemory;
pub use stripe::{Stripe, Tables};
pub use turn::{Turn, Turns};
