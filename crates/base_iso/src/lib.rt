//! Isomorphism of matroids that are given by their bases.
#![tactic(auto)]

mod carried;
mod compared;
mod counts;
mod search;

use arrayvec::ArrayVec;
pub use compared::{Counted, isomorphism, isomorphism_of};

/// Labels of at most 16 elements: where each goes.
pub type Labels = ArrayVec<u8, 16>;
