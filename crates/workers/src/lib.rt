//! Grows a level by threads that share a store of classes.
//!
//! Each worker takes parents from a pool of stealing deques, and offers the key of each of their tries to the store, by a pass of
//! its own. When all have ended the level is closed, and the keys that were told New are those of the next level.
#![tactic(auto)]

mod batches;
mod children;
mod forms;
mod growth;
mod part;
mod seats;
mod threads;
mod worker;

pub use growth::grow;
pub use part::work;
/// Want of memory.
pub use std::alloc::AllocError as NoMemory;
