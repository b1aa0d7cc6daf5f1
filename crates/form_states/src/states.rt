// The states of the search, beside their columns.
use crate::codes::Fields;
use crate::columns::Column;
use crate::groups::Groups;
use crate::lists::Marks;

/// What the search knows of the representation: its fields, and the numbers of factors, rows and columns; and whether the search
/// ends where it first finds something better than what it began with.
#[derive(Drop)]
pub struct Shape {
    pub fields: Fields,
    pub count: usize,
    pub rank: usize,
    pub size: usize,
    pub first: bool,
}

/// The elements outside the flat of the elements of the rows that are chosen. Rows of one group have one factor in each form.
#[derive(Drop)]
pub struct Frame {
    pub there: Marks,
    pub groups: Groups,
}

/// An element chosen for the next row: the first row `p` where its column isn't 0, the negative of its column, the elements that
/// it brings into the flat, and those that stay outside.
#[derive(Drop)]
pub struct Row {
    pub p: usize,
    pub minus: Column,
    pub class: Marks,
    pub rest: Marks,
}

/// What changes while the elements of the flat are placed: those that are open, what each row is multiplied by, the groups, and the
/// least number that each open element can have as the next column.
#[derive(Drop)]
pub struct State {
    pub open: Marks,
    pub scalars: Column,
    pub groups: Groups,
    pub numbers: [u128; 16],
}
