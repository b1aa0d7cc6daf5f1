//! Keys, which are short lists of bytes, and the set of keys: its chains go by index, and its tables of heads grow a few steps at each insert.
#![tactic(auto)]

mod key;
mod order;
mod rows;
mod set;
mod steps;
mod table;

pub use key::Key;
pub use rows::Rows;
pub use set::LinkSet;
pub use std::alloc::AllocError as NoMemory;
pub use steps::Steps;
