//! The form of a class: the least standard representation that is equivalent to a given one.
//!
//! This is the plain program. It goes through each choice of powers that the mode allows, then through each ordered basis and
//! each choice of row scalars, and keeps the least of the standard representations that it meets. It takes no memory.
#![tactic(auto)]

mod columns;
mod coordinates;
mod form;
mod powers;
mod scalars;
mod search;
mod standard;

pub use form::least_form;
pub use standard::some_standard;
