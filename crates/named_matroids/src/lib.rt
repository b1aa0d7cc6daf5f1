//! Matroids of at most 10 elements by their bases, and those that have a name: the uniform matroids, the Fano matroid, its
//! dual, the non-Fano matroid, and the cycle matroids of the complete graphs on four and five vertices (Oxley, *Matroid
//! Theory*, appendix), and those of matrices over a field (chapter 1). No memory is taken.
#![tactic(auto)]

mod columns;
mod item;
mod matrix_text;
mod minor;
mod number;
mod spelling;
mod tables;
mod uniform;

pub use item::{MinorItem, item_of, matrix_item, named};
pub use matrix_text::MatrixText;
pub use minor::Minor;
pub use number::number_of;
pub use spelling::{NameFault, Spelling};
