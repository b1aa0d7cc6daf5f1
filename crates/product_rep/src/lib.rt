//! Representations over a product of finite fields.
#![tactic(auto)]

mod factors;
mod matrices;
mod moves;
mod rep;

pub use factors::Factors;
pub use matrices::{unit_rows, zeros};
pub use matroid_theory::Mode;
pub use moves::{Move, act, raised, raised_code};
pub use rep::{ProductColumn, Rep, compare};
