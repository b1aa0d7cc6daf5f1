//! Coefficients of a column in a basis.
ghost use Rattle.std.specs.Prelude.{◌≤◌, ◌≡◌, length};
ghost use Rattle.elimination.specs.Columns.{height, AreColumns, IsColumn};

use crate::ranks::{column, columns};
use elimination::{independent, solve};
use field_tables::{Column, Field};
use std::process::Abort;
use std::test::Fail;

/// The coefficients, where the basis is one.
fn solved(field: Field, basis: &[Column], target: &Column) -> Option<Column>
    requires count { length basis.now ≤ 16 }
    requires columns { AreColumns field (height basis.now) basis.now }
    requires target { IsColumn field (length target.now.items) target.now.items }
{
    let square = basis.first().map(|first| first.len()) == Some(target.len());
    if square && basis.len() == target.len() && independent(field, basis) {
        Some(solve(field, basis, target))
    } else {
        None
    }
}

/// Compares the coefficients of the target in the basis.
fn compare_coefficients<const N: usize>(
    rt: &impl Abort,
    order: u8,
    basis: [[u8; N]; N],
    target: [u8; N],
    wanted: [u8; N],
) -> Result<(), Fail> {
    assert!(rt; N <= 6);
    let field = Field::of(order).ok_or("no field of that order")?;
    let basis = columns(field, basis);
    let target = column(field, target);
    let wanted = column(field, wanted);
    let found = solved(field, basis.as_slice(), &target).ok_or("no basis")?;
    assert_eq!(rt; found.as_slice(), wanted.as_slice(), "at {order}");
    Ok(())
}

#[test]
fn coefficients_of_three(rt: HostRuntime) -> Result<(), Fail> {
    compare_coefficients(
        &rt,
        2,
        [[1, 1, 0], [0, 1, 1], [0, 0, 1]],
        [1, 0, 1],
        [1, 1, 0],
    )?;
    compare_coefficients(
        &rt,
        3,
        [[1, 1, 0], [0, 1, 1], [0, 0, 1]],
        [1, 0, 1],
        [1, 2, 2],
    )?;
    compare_coefficients(
        &rt,
        4,
        [[0, 1, 0], [1, 0, 0], [0, 0, 2]],
        [1, 2, 3],
        [2, 1, 2],
    )?;
    compare_coefficients(
        &rt,
        7,
        [[1, 2, 3], [2, 5, 1], [0, 1, 4]],
        [5, 2, 2],
        [3, 1, 5],
    )?;
    compare_coefficients(
        &rt,
        8,
        [[3, 0, 0], [0, 5, 0], [1, 0, 6]],
        [2, 4, 5],
        [2, 3, 4],
    )
}

#[test]
fn coefficients_of_two(rt: HostRuntime) -> Result<(), Fail> {
    compare_coefficients(&rt, 4, [[1, 0], [0, 1]], [2, 3], [2, 3])?;
    compare_coefficients(&rt, 5, [[2, 1], [1, 1]], [1, 3], [3, 0])?;
    compare_coefficients(&rt, 9, [[3, 0], [1, 3]], [5, 2], [3, 3])
}
