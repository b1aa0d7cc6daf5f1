//! The form of a class, found fast: the same form as the plain program's.
//!
//! The basis is chosen from the last row up, so that the later columns of a form come in layers. Within a layer the next column is
//! the least that an open element can have, where rows that no column tied together yet are scaled freely.
#![tactic(auto)]

mod form;
mod linear;
mod modes;
mod own;
mod search;
mod start;

pub use linear::is_standard;
pub use modes::least_form_fast;
pub use own::is_form_fast;
