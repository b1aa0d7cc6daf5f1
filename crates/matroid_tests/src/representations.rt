//! Factors and the columns of representations.
ghost use Rattle.std.specs.Prelude.{◌≡◌};

use crate::build::{empty_rep, push_codes, rep_of, unit_rep};
use product_rep::{Factors, Rep, compare};
use std::cmp::Ordering;
use std::process::Abort;
use std::test::Fail;

/// Compares whether there are such factors, and the orders of their fields.
fn compare_factors(rt: &impl Abort, orders: &[u8], found: bool) {
    match Factors::of(orders) {
        Some(factors) => {
            assert!(rt; found, "at {orders:?}");
            assert_eq!(rt; factors.count(), orders.len());
            let copy = factors.copy();
            for i in 0..factors.count() {
                assert_eq!(rt; factors.field(i).order(), orders[i]);
                assert_eq!(rt; copy.field(i).order(), orders[i]);
            }
        }
        None => assert!(rt; !found, "at {orders:?}"),
    }
}

#[test]
fn orders_of_factors(rt: HostRuntime) {
    compare_factors(&rt, &[], false);
    compare_factors(&rt, &[2], true);
    compare_factors(&rt, &[6], false);
    compare_factors(&rt, &[2, 3, 9], true);
    compare_factors(&rt, &[13, 11, 9], true);
    compare_factors(&rt, &[2, 3, 4, 5], false);
}

/// Compares the codes of column `j`.
fn compare_column_at(rt: &impl Abort, rep: &Rep, j: usize, codes: &[u8]) {
    assert!(rt; j < rep.size());
    assert_eq!(rt; rep.column(j).as_slice(), codes, "at {j}");
}

/// Compares the codes of column `j` in this factor.
fn compare_factor_column(rt: &impl Abort, rep: &Rep, factor: usize, j: usize, codes: &[u8]) {
    assert!(rt; factor < rep.factors().count());
    assert!(rt; j < rep.size());
    assert_eq!(rt; rep.factor_column(factor, j).as_slice(), codes);
}

#[test]
fn columns_of_representations(rt: HostRuntime) -> Result<(), Fail> {
    assert_eq!(rt; empty_rep(&[2, 3], 3)?.size(), 0);
    let mut rep = unit_rep(&[2, 3], 3)?;
    assert_eq!(rt; rep.size(), 3);
    assert_eq!(rt; rep.rank(), 3);
    assert_eq!(rt; rep.factors().count(), 2);
    compare_column_at(&rt, &rep, 1, &[0, 0, 1, 1, 0, 0]);
    compare_factor_column(&rt, &rep, 1, 2, &[0, 0, 1]);
    push_codes(&mut rep, &[1, 1, 1, 1, 1, 2])?;
    assert_eq!(rt; rep.size(), 4);
    compare_column_at(&rt, &rep, 3, &[1, 1, 1, 1, 1, 2]);
    compare_factor_column(&rt, &rep, 1, 3, &[1, 1, 2]);
    Ok(())
}

/// Compares all columns of a representation of rank 3 over two fields.
fn compare_columns(rt: &impl Abort, rep: &Rep, columns: &[[u8; 6]]) {
    assert_eq!(rt; rep.factors().count(), 2);
    assert_eq!(rt; rep.rank(), 3);
    assert_eq!(rt; rep.size(), columns.len());
    for (j, codes) in columns.iter().enumerate() {
        compare_column_at(rt, rep, j, codes);
    }
}

/// The representation without column `j`, if there is such a column.
fn without(rep: &Rep, j: usize) -> Option<Rep> {
    if j < rep.size() {
        Some(rep.without(j))
    } else {
        None
    }
}

#[test]
fn copies_and_removals(rt: HostRuntime) -> Result<(), Fail> {
    let rep = rep_of(&[2, 3], 3, &[[1, 1, 1, 1, 1, 2]])?;
    compare_columns(
        &rt,
        &rep.copy(),
        &[
            [1, 1, 0, 0, 0, 0],
            [0, 0, 1, 1, 0, 0],
            [0, 0, 0, 0, 1, 1],
            [1, 1, 1, 1, 1, 2],
        ],
    );
    let rest = without(&rep, 1).ok_or("no such column")?;
    compare_columns(
        &rt,
        &rest,
        &[[1, 1, 0, 0, 0, 0], [0, 0, 0, 0, 1, 1], [1, 1, 1, 1, 1, 2]],
    );
    Ok(())
}

/// The order of two representations, if they have one shape.
pub fn order_of(a: &Rep, b: &Rep) -> Option<Ordering> {
    if a.factors().same(&b.factors()) && a.rank() == b.rank() && a.size() == b.size() {
        Some(compare(a, b))
    } else {
        None
    }
}

#[test]
fn orders_of_representations(rt: HostRuntime) -> Result<(), Fail> {
    let mut a = rep_of(&[2, 3], 3, &[[0, 0, 1, 1, 1, 1], [1, 1, 0, 0, 1, 1]])?;
    let mut b = a.copy();
    push_codes(&mut a, &[1, 1, 1, 1, 1, 1])?;
    push_codes(&mut b, &[1, 1, 1, 2, 0, 0])?;
    assert_eq!(rt; order_of(&a, &b), Some(Ordering::Less));
    assert_eq!(rt; order_of(&b, &a), Some(Ordering::Greater));
    assert_eq!(rt; order_of(&a, &a), Some(Ordering::Equal));
    Ok(())
}
