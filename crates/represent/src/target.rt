//! What a search looks for.

use crate::table::Table;
use arrayvec::ArrayVec;

/// A matrix is sought over the field of this order, of this rank and size, with these bases.
#[derive(Drop)]
pub struct Target {
    pub order: u8,
    pub rank: u8,
    pub size: u8,
    pub bases: Table,
}

/// The codes of the columns after the unit columns, column by column, each from the top row. There are at most ten such columns
/// of six rows, and no more than 60 codes for any other rank.
pub type Codes = ArrayVec<u8, 60>;
