//! The columns by which a representation can be extended.
//!
//! A column is normalised where it isn't zero, all factors have the same support, and its first nonzero entry is 1 in every
//! factor. The columns of a standard simple representation whose factors agree are the normalised ones by which it stays
//! simple and its factors still agree. They come in rising order: row by row, factor by factor within a row, and by code.
#![tactic(auto)]

mod admissible;
mod agreement;
mod columns;
pub mod laws;
mod normalised;
mod normals;
mod planes;

pub use columns::Columns;
