//! The finite fields GF(q) for q one of 2, 3, 4, 5, 7, 8, 9, 11 and 13, by the codes of their elements, and the columns and
//! sets that every layer speaks of.
#![tactic(auto)]

mod field;
mod tables;

use arrayvec::ArrayVec;
pub use field::Field;

/// A set of columns: bit j stands for column j.
pub type Mask = u16;

/// One column of one factor, from the top row: at most 6 codes.
pub type Column = ArrayVec<u8, 6>;
