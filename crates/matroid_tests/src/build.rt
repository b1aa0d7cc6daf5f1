//! Representations of given columns, each checked as it is built.
ghost use Rattle.std.specs.Prelude.{◌≡◌, ◌≤◌, ◌<◌, IsTrue, IfOk};
ghost use Rattle.matroid_theory.specs.Rep.{IsStandard, IsProductColumn};

use arrayvec::CapacityError;
use product_rep::{Factors, ProductColumn, Rep};
use std::test::Fail;

/// The unit columns over these fields, and then these columns, each row by row and factor by factor within a row.
pub fn rep_of<const N: usize>(orders: &[u8], rank: u8, columns: &[[u8; N]]) -> Result<Rep, Fail> {
    let mut rep = unit_rep(orders, rank)?;
    for codes in columns {
        push_codes(&mut rep, codes)?;
    }
    Ok(rep)
}

/// The unit columns over these fields.
pub fn unit_rep(orders: &[u8], rank: u8) -> Result<Rep, Fail>
    ensures { IfOk result (λ rep. IsStandard rep) }
{
    let factors = Factors::of(orders).ok_or("no factors")?;
    if rank < 1 || rank > 6 {
        return Err("no such rank".into());
    }
    Ok(Rep::unit(factors, rank))
}

/// No columns over these fields.
pub fn empty_rep(orders: &[u8], rank: u8) -> Result<Rep, Fail> {
    let factors = Factors::of(orders).ok_or("no factors")?;
    if rank < 1 || rank > 6 {
        return Err("no such rank".into());
    }
    Ok(Rep::empty(factors, rank))
}

/// Adds the column of these codes.
pub fn push_codes(rep: &mut Rep, codes: &[u8]) -> Result<(), Fail> {
    if rep.size() >= 16 {
        return Err("too many columns".into());
    }
    if !is_column(&rep.factors(), rep.rank(), codes) {
        return Err("no column".into());
    }
    rep.push_column(&column_of(codes)?);
    Ok(())
}

/// The column of these codes.
pub fn column_of(codes: &[u8]) -> Result<ProductColumn, CapacityError>
    ensures { IfOk result (λ column. column.items ≡ codes.now) }
{
    let mut column = ProductColumn::new();
    column.try_extend_from_slice(codes)?;
    Ok(column)
}

/// Whether column `j` has these codes.
pub fn has_column(rep: &Rep, j: usize, codes: &[u8]) -> bool {
    j < rep.size() && rep.column(j).as_slice() == codes
}

/// Whether so many rows of codes of these fields are a column.
fn is_column(factors: &Factors, rank: usize, codes: &[u8]) -> bool
    ensures { IsTrue result → IsProductColumn factors.now rank codes.now }
{
    let count = factors.count();
    if rank > 6 || codes.len() != rank * count {
        return false;
    }
    for place in 0..codes.len() {
        if codes[place] >= factors.field(place % count).order() {
            return false;
        }
    }
    true
}
