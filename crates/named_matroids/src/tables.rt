//! The matrices of the matroids that have a name.
ghost use Rattle.std.specs.Prelude.{◌≡◌, ◌≤◌, ◌<◌, length, IsTrue};
ghost use Rattle.matroid_theory.specs.Field.{IsOrder};
ghost use Rattle.matroid_theory.specs.Given.{ColumnsOver, IsGivenBy};
ghost use Rattle.small_lists.specs.Lists.{lists};
ghost use Rattle.named_matroids.specs.Listed.{are_codes};

use crate::columns::matroid_over;
use crate::minor::Minor;
use arrayvec::ArrayVec;
use field_tables::Column;
use small_lists::list_of;

/// The columns of the Fano matroid over GF(2). The first six are those of K4.
pub const FANO: [[u8; 3]; 7] = [
    [1, 0, 0],
    [0, 1, 0],
    [0, 0, 1],
    [0, 1, 1],
    [1, 0, 1],
    [1, 1, 0],
    [1, 1, 1],
];

/// The columns of K5 over GF(2).
pub const K_FIVE: [[u8; 4]; 10] = [
    [1, 0, 0, 0],
    [0, 1, 0, 0],
    [0, 0, 1, 0],
    [0, 0, 0, 1],
    [1, 1, 0, 0],
    [1, 0, 1, 0],
    [1, 0, 0, 1],
    [0, 1, 1, 0],
    [0, 1, 0, 1],
    [0, 0, 1, 1],
];

/// The matroid of these columns over the field of that order.
pub fn matroid_of_table<const N: usize>(order: u8, table: &[[u8; N]]) -> Minor
    requires order { IsOrder order }
    requires rows { N ≤ 6 }
    requires some { 0 < length table.now }
    requires few { length table.now ≤ 10 }
    requires codes { IsTrue (are_codes order N table.now) }
    ensures { IsGivenBy (ColumnsOver order table.now) result }
{
    let columns = columns_of(table);
    matroid_over(order, columns.as_slice())
}

/// The columns of the table.
fn columns_of<const N: usize>(table: &[[u8; N]]) -> ArrayVec<Column, 10>
    requires rows { N ≤ 6 }
    requires few { length table.now ≤ 10 }
    ensures { lists result.items ≡ table.now }
{
    let mut columns = ArrayVec::new();
    for codes in table {
        columns.push(list_of(codes));
    }
    columns
}
