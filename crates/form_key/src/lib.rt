//! Keys of standard representations: their codes after the unit columns, two to a byte.
#![tactic(auto)]

mod codes;
mod from_key;
pub mod laws;
mod to_key;

pub use from_key::unpack;
pub use std::alloc::AllocError as NoMemory;
pub use to_key::pack;
