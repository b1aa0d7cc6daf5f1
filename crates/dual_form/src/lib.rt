//! The dual form of a represented matroid.
#![tactic(auto)]

mod dual;

pub use dual::{dual_of, standard_dual};
