//! Ranks and independence of columns.
ghost use Rattle.std.specs.Prelude.{◌≤◌, ◌≡◌, length};
ghost use Rattle.elimination.specs.Columns.{height, AreColumns, IsColumn};

use arrayvec::ArrayVec;
use elimination::{independent, rank};
use field_tables::{Column, Field};
use std::process::Abort;
use std::test::Fail;

/// The column of these numbers, each taken modulo the order.
pub fn column<const N: usize>(field: Field, codes: [u8; N]) -> Column
    requires { N ≤ 6 }
    ensures { IsColumn field N result.items }
{
    let order = field.order();
    field.laws();
    let mut column = ArrayVec::new();
    for code in &codes {
        column.push(*code % order);
    }
    column
}

/// The columns of the table, each number taken modulo the order.
pub fn columns<const N: usize, const M: usize>(
    field: Field,
    table: [[u8; N]; M],
) -> ArrayVec<Column, 16>
    requires rows { N ≤ 6 }
    requires count { M ≤ 16 }
    ensures columns { AreColumns field (height result.items) result.items }
    ensures count { length result.items ≡ M }
{
    let mut list = ArrayVec::new();
    for codes in &table {
        list.push(column(field, *codes));
    }
    list
}

/// Compares the rank of these columns, which are independent where there are no more.
fn compare_rank<const N: usize, const M: usize>(
    rt: &impl Abort,
    order: u8,
    codes: [[u8; N]; M],
    size: usize,
) -> Result<(), Fail> {
    assert!(rt; N <= 6);
    assert!(rt; M <= 16);
    let field = Field::of(order).ok_or("no field of that order")?;
    let list = columns(field, codes);
    assert_eq!(rt; rank(field, list.as_slice()), size, "at {order}");
    assert_eq!(rt;
        independent(field, list.as_slice()),
        size == M,
        "at {order}"
    );
    Ok(())
}

#[test]
fn three_columns(rt: HostRuntime) -> Result<(), Fail> {
    compare_rank(&rt, 2, [[1, 0, 0], [0, 1, 0], [1, 1, 0]], 2)?;
    compare_rank(&rt, 2, [[1, 1, 0], [0, 1, 1], [1, 0, 1]], 2)?;
    compare_rank(&rt, 3, [[1, 1, 0], [0, 1, 1], [1, 0, 1]], 3)?;
    compare_rank(&rt, 4, [[1, 2, 3], [2, 3, 1], [0, 0, 1]], 2)?;
    compare_rank(&rt, 5, [[0, 0, 0], [1, 2, 3], [2, 4, 1]], 1)?;
    compare_rank(&rt, 7, [[1, 2, 3], [2, 5, 1], [0, 1, 4]], 3)?;
    compare_rank(&rt, 9, [[0, 0, 0], [0, 0, 0], [0, 0, 0]], 0)
}

/// Six columns of six rows, of which none depends on the others where `last` isn't 0.
fn six_columns(last: u8) -> [[u8; 6]; 6] {
    [
        [1, 0, 0, 0, 0, 0],
        [0, 0, 0, 0, 0, last],
        [0, 1, 0, 0, 0, 0],
        [0, 0, 0, last, 0, 0],
        [0, 0, last, 0, 0, 0],
        [1, 1, 1, 1, 1, 1],
    ]
}

/// Compares the rank of the six columns with the last code of the field.
fn compare_six(rt: &impl Abort, order: u8) -> Result<(), Fail> {
    compare_rank(rt, order, six_columns(order.wrapping_sub(1)), 6)
}

#[test]
fn as_many_independent_columns_as_rows(rt: HostRuntime) -> Result<(), Fail> {
    for order in [2, 3, 4, 5, 7, 8, 9, 11, 13] {
        compare_six(&rt, order)?;
    }
    Ok(())
}

#[test]
fn other_numbers_of_columns(rt: HostRuntime) -> Result<(), Fail> {
    let field = Field::of(3).ok_or("no field of order 3")?;
    assert_eq!(rt; rank(field, &[]), 0);
    assert!(rt; independent(field, &[]));
    compare_rank(&rt, 3, [[0, 0]], 0)?;
    compare_rank(&rt, 3, [[1, 0], [0, 0], [2, 2]], 2)
}
