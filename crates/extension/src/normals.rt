// Normals of planes: rows of coefficients whose products with given columns have the sum 0. That they have is not promised
// here: whoever takes one tests it.
ghost use Rattle.std.specs.Prelude.{◌≡◌, ◌<◌, ◌≤◌, ℕ, IfSome, length, slice_index};
ghost use Rattle.elimination.specs.Columns.{IsColumn, AreColumns};
ghost use Rattle.matroid_theory.specs.Rep.{size, count, order, IsStandard};
ghost use Rattle.extension.specs.Planes.{IsNormal};

use arrayvec::ArrayVec;
use column_sets::in_set;
use field_tables::{Column, Field, Mask};
use product_rep::Rep;
use small_lists::list_of;

/// A row of coefficients, not all 0, for the columns of the set in one factor: the unit rows are made 0 on one column after
/// another, and the first row that is left is taken.
pub fn normal(rep: &Rep, factor: usize, set: Mask) -> Option<Column>
    requires standard { IsStandard rep.now }
    requires factor { factor < count rep.now }
    ensures { IfSome result (λ row. IsNormal (order rep.now factor) rep.now.rank row.items) }
{
    rep.laws();
    let field = rep.factors().field(factor);
    let mut rows: ArrayVec<Column, 6> = ArrayVec::new();
    for j in 0..rep.rank() {
        rows.push(rep.factor_column(factor, j));
    }
    for j in 0..rep.size() {
        if in_set(set, j) {
            rows = made_zero(field, rep.rank(), rows, &rep.factor_column(factor, j));
        }
    }
    first_nonzero(field, rep.rank(), rows.as_slice())
}

/// The rows, each less the multiple of one of them that makes it 0 on the column.
fn made_zero(
    field: Field,
    rank: usize,
    rows: ArrayVec<Column, 6>,
    column: &Column,
) -> ArrayVec<Column, 6>
    requires rows { AreColumns field rank rows.items }
    requires column { IsColumn field rank column.now.items }
    ensures { AreColumns field rank result.items }
{
    let Some(pivot) = pivot(field, rank, rows.as_slice(), column) else {
        return rows;
    };
    let row: Column = list_of(rows[pivot].as_slice());
    let at_row = field.sum_of_products(row.as_slice(), column.as_slice());
    let mut less = ArrayVec::new();
    for other in rows.as_slice() {
        let at_other = field.sum_of_products(other.as_slice(), column.as_slice());
        less.push(difference(field, at_row, other, at_other, &row));
    }
    less
}

/// The first of the rows that isn't 0 on the column.
fn pivot(field: Field, rank: usize, rows: &[Column], column: &Column) -> Option<usize>
    requires rows { AreColumns field rank rows.now }
    requires column { IsColumn field rank column.now.items }
    ensures { IfSome result (λ place. place < length rows.now) }
{
    let _rank = rank;
    for j in 0..rows.len() {
        if field.sum_of_products(rows[j].as_slice(), column.as_slice()) != 0 {
            return Some(j);
        }
    }
    None
}

/// The first row `a` times, less the second one `b` times.
fn difference(field: Field, a: u8, first: &Column, b: u8, second: &Column) -> Column
    requires a { a < field }
    requires b { b < field }
    requires first { IsColumn field (length second.now.items) first.now.items }
    requires second { IsColumn field (length second.now.items) second.now.items }
    ensures { IsColumn field (length second.now.items) result.items }
{
    let minus = field.neg(b);
    let mut row = ArrayVec::new();
    for i in 0..second.len() {
        row.push(field.add(field.mul(a, first[i]), field.mul(minus, second[i])));
    }
    row
}

/// The first row that isn't 0.
fn first_nonzero(field: Field, rank: usize, rows: &[Column]) -> Option<Column>
    requires { AreColumns field rank rows.now }
    ensures { IfSome result (λ row. IsNormal field rank row.items) }
{
    let _field = (field, rank);
    for row in rows {
        if row.iter().any(|code| *code != 0) {
            return Some(list_of(row.as_slice()));
        }
    }
    None
}
