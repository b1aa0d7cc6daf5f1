//! Grows the levels of a request, one from the other.
//!
//! The first level is the unit columns alone. Each later one has the forms of its tries: a form of the level before,
//! followed by a column by which it can be extended. What has a forbidden minor is left out, before its form is sought.
#![tactic(auto)]

mod distinct;
mod filter;
mod forbidden;
mod form_list;
mod found;
mod growth;
mod level;
mod level_list;
mod parent;
mod shown;

pub use filter::passes;
pub use forbidden::{Forbidden, avoids};
pub use form_list::FormList;
pub use growth::{grow_alone, next_size};
pub use level::{Level, first_level};
pub use level_list::LevelList;
pub use parent::Children;
pub use shown::listed;
/// Want of memory.
pub use std::alloc::AllocError as NoMemory;
