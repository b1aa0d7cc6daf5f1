//! The coefficients of a column in a basis.
ghost use Rattle.std.specs.Prelude.{◌≡◌, ◌+◌, ◌<◌, ◌≤◌, ℕ, suc, length, slice_index};
ghost use Rattle.matroid_theory.specs.Matrix.{combination};
ghost use Rattle.elimination.specs.Columns.{column, matrix_of, AreColumns, AreIndependent, IsColumn};
ghost use Rattle.elimination.specs.Equations.{sum_of_products, IsEquation, AreTriangle, Meets};

use crate::clear::{clear, clear_all, copies, pivot};
use arrayvec::ArrayVec;
use field_tables::{Column, Field};
use small_lists::list_of;

/// The coefficients whose combination of the columns of `basis` is `column`.
///
/// The basis has as many columns as rows. Each step keeps the equation of the last column's pivot row, and takes that column
/// from the others; the equations then give the coefficients one by one.
pub fn solve(field: Field, basis: &[Column], column: &Column) -> Column
    requires square { length basis.now ≡ length column.now.items }
    requires basis { AreColumns field (length column.now.items) basis.now }
    requires column { IsColumn field (length column.now.items) column.now.items }
    requires independent { AreIndependent field (length column.now.items) basis.now }
    ensures codes { IsColumn field (length column.now.items) result.items }
    ensures combination { (i : ℕ) → i < length column.now.items → combination field (length basis.now) (matrix_of basis.now) (slice_index result.items) i ≡ slice_index column.now.items i }
    ensures only { (a : ℕ → ℕ) → ((j : ℕ) → j < length basis.now → a j < field) → ((i : ℕ) → i < length column.now.items → combination field (length basis.now) (matrix_of basis.now) a i ≡ slice_index column.now.items i) → (j : ℕ) → j < length basis.now → a j ≡ slice_index result.items j }
{
    field.laws();
    let mut target: Column = list_of(column.as_slice());
    let mut rest = copies(basis);
    let mut equations: ArrayVec<Column, 6> = ArrayVec::new();
    let mut sides = ArrayVec::new();
    while let Some(last) = rest.pop() {
        let Some(row) = pivot(&last) else {
            unreachable!();
        };
        equations.push(equation(rest.as_slice(), &last, row));
        sides.push(target[row]);
        clear_all(field, rest.as_mut_slice(), &last, row);
        clear(field, &mut target, &last, row);
    }
    values(field, equations.as_slice(), &sides)
}

/// The codes of the columns in one row, and that of the last column.
fn equation(columns: &[Column], last: &Column, row: usize) -> Column
    requires count { length columns.now < 6 }
    requires columns { (j : ℕ) → j < length columns.now → row < length (column columns.now j) }
    requires last { row < length last.now.items }
    ensures count { length result.items ≡ length columns.now + 1 }
    ensures before { (j : ℕ) → j < length columns.now → slice_index result.items j ≡ matrix_of columns.now row j }
    ensures last { slice_index result.items (length columns.now) ≡ slice_index last.now.items row }
{
    let mut codes = ArrayVec::new();
    for column in columns {
        codes.push(column[row]);
    }
    codes.push(last[row]);
    codes
}

/// The only values that meet the equations.
fn values(field: Field, equations: &[Column], sides: &Column) -> Column
    requires count { length equations.now ≤ 6 }
    requires equations { AreTriangle field (length equations.now) equations.now }
    requires sides { IsColumn field (length equations.now) sides.now.items }
    ensures codes { IsColumn field (length equations.now) result.items }
    ensures only { (a : ℕ → ℕ) → ((j : ℕ) → j < length equations.now → a j < field) → Meets field (length equations.now) equations.now sides.now.items a → (j : ℕ) → j < length equations.now → a j ≡ slice_index result.items j }
{
    let mut values = ArrayVec::new();
    for l in (0..equations.len()).rev() {
        let next = value(field, &equations[l], sides[l], &values);
        values.push(next);
    }
    values
}

/// The only value that meets an equation after those before it.
fn value(field: Field, equation: &Column, side: u8, values: &Column) -> u8
    requires equation { IsEquation field (length values.now.items) equation.now.items }
    requires side { side < field }
    requires values { (j : ℕ) → j < length values.now.items → slice_index values.now.items j < field }
    ensures code { result < field }
    ensures only { (a : ℕ → ℕ) → ((j : ℕ) → j < length values.now.items → a j ≡ slice_index values.now.items j) → a (length values.now.items) < field → sum_of_products field (suc (length values.now.items)) equation.now.items a ≡ side → a (length values.now.items) ≡ result }
{
    field.laws();
    let known = field.sum_of_products(equation.as_slice(), values.as_slice());
    let rest = field.add(side, field.neg(known));
    field.mul(rest, field.inv(equation[values.len()]))
}
