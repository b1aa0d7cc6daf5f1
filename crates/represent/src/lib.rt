//! Representations of a matroid over another field, by a search for the least standard matrix with its bases.
//!
//! The entries after the unit columns are filled in column by column, each from the top row and in rising order of the codes. Each
//! set of rank many elements is tested as soon as the entries tell whether it is independent (Oxley, *Matroid Theory*, section
//! 2.2 and chapter 6, on standard representative matrices and on representability). No memory is taken.
#![tactic(auto)]

mod fill;
mod free;
mod laws;
mod least;
mod matrix;
mod table;
mod target;
mod told;

pub use laws::named_matroids_begin_with_base;
pub use least::{represent, represent_minor};
