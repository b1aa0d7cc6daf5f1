//! The bases of a representation and their list, whether its factors agree, and whether it is simple.
#![tactic(auto)]

mod base_list;
mod basis;
mod factor;
mod simple;

pub use base_list::BaseList;
pub use basis::{agree, is_basis, is_independent};
pub use factor::{FactorColumns, picked};
pub use simple::is_simple;
/// Want of memory.
pub use std::alloc::AllocError as NoMemory;
