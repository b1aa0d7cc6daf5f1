//! The columns by which a representation can be extended.
ghost use Rattle.matroid_theory.specs.Rep.{IsStandard};

use crate::build::unit_rep;
use bases::{agree, is_simple};
use extension::Columns;
use product_rep::{Factors, ProductColumn, Rep};
use std::test::Fail;

// Whether the columns by which the representation can be extended are so many, the first and the last of them with these
// codes.
fn extend_by(rep: &Rep, count: usize, first: &[u8], last: &[u8]) -> bool
    requires { IsStandard rep.now }
{
    if rep.size() > 15 || !is_simple(rep) || !agree(rep) {
        return false;
    }
    let mut seen = 0;
    let mut right = true;
    for column in Columns::of(rep) {
        seen += 1;
        right &= seen != 1 || column.as_slice() == first;
        right &= seen != count || column.as_slice() == last;
    }
    right && seen == count
}

// The columns `011 | 011`, .., `111 | 122` that extend the unit columns over GF(2) and GF(3), the four over GF(2) alone, and
// the six over GF(7) of rank 2.
#[test]
fn columns_after_the_unit_columns(rt: HostRuntime) -> Result<(), Fail> {
    let both = unit_rep(&[2, 3], 3)?;
    assert!(rt; extend_by(&both, 10, &[0, 0, 1, 1, 1, 1], &[1, 1, 1, 2, 1, 2]));
    let binary = unit_rep(&[2], 3)?;
    assert!(rt; extend_by(&binary, 4, &[0, 1, 1], &[1, 1, 1]));
    let line = unit_rep(&[7], 2)?;
    assert!(rt; extend_by(&line, 6, &[1, 1], &[1, 6]));
    Ok(())
}

// The line over GF(2) has three points.
#[test]
fn a_full_line(rt: HostRuntime) -> Result<(), Fail> {
    let mut rep = Rep::unit(Factors::of(&[2]).ok_or("no factors")?, 2);
    let mut column = ProductColumn::new();
    column.push(1);
    column.push(1);
    rep.push_column(&column);
    assert!(rt; extend_by(&rep, 0, &[], &[]));
    Ok(())
}
