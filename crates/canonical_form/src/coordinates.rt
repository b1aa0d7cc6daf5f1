// Coordinates in an ordered basis.
ghost use Rattle.std.specs.Prelude.{◌≡◌, ◌<◌, ◌≤◌, ◌+◌, ◌*◌, ◌↔◌, ℕ, IsTrue, true, length, slice_index};
ghost use Rattle.elimination.specs.Columns.{column, IsColumn};
ghost use Rattle.matroid_theory.specs.Matrix.{combination, IsIndependent};
ghost use Rattle.matroid_theory.specs.Rep.{column_of, count, matrix, order, size, KeepsLimits};
ghost use Rattle.canonical_form.specs.Search.{chosen, AreCoordinates, AreIndependentColumns, AreOtherCoordinates, IsOrderedBasis};

use crate::columns::ColumnList;
use arrayvec::ArrayVec;
use elimination::{independent, solve};
use field_tables::Column;
use product_rep::{ProductColumn, Rep};

/// Whether the columns are independent in every factor.
pub fn are_independent(rep: &Rep, columns: &[u8]) -> bool
    requires some { 0 < length columns.now }
    requires few { length columns.now ≤ 6 }
    requires below { (l : ℕ) → l < length columns.now → slice_index columns.now l < size rep.now }
    ensures { IsTrue result ↔ AreIndependentColumns rep.now columns.now }
{
    for factor in 0..rep.factors().count() {
        if !are_independent_in(rep, factor, columns) {
            return false;
        }
    }
    true
}

/// Whether the columns are independent in the factor.
fn are_independent_in(rep: &Rep, factor: usize, columns: &[u8]) -> bool
    requires factor { factor < count rep.now }
    requires some { 0 < length columns.now }
    requires few { length columns.now ≤ 6 }
    requires below { (l : ℕ) → l < length columns.now → slice_index columns.now l < size rep.now }
    ensures { IsTrue result ↔ IsIndependent (order rep.now factor) rep.now.rank (length columns.now) (chosen rep.now columns.now factor) (λ _. true) }
{
    let picked = picked(rep, factor, columns);
    independent(rep.factors().field(factor), picked.as_slice())
}

/// These columns, of one factor.
fn picked(rep: &Rep, factor: usize, columns: &[u8]) -> ArrayVec<Column, 6>
    requires factor { factor < count rep.now }
    requires few { length columns.now ≤ 6 }
    requires below { (l : ℕ) → l < length columns.now → slice_index columns.now l < size rep.now }
    ensures count { length result.items ≡ length columns.now }
    ensures columns { (l : ℕ) → l < length columns.now → column result.items l ≡ column_of rep.now factor (slice_index columns.now l) }
    ensures is_rep { KeepsLimits rep.now }
{
    rep.laws();
    let mut list = ArrayVec::new();
    for j in columns {
        list.push(rep.factor_column(factor, usize::from(*j)));
    }
    list
}

/// The coordinates in the ordered basis of the columns that aren't in it.
pub fn other_coordinates(rep: &Rep, basis: &[u8]) -> ColumnList
    requires { IsOrderedBasis rep.now basis.now }
    ensures { AreOtherCoordinates rep.now basis.now result }
{
    let mut list = ColumnList::new();
    for k in 0..rep.size() {
        if !basis.contains(&(k as u8)) {
            list.push(coordinates(rep, basis, k));
        }
    }
    list
}

/// The coordinates of column `k` in the ordered basis, in every factor.
fn coordinates(rep: &Rep, basis: &[u8], k: usize) -> ProductColumn
    requires is_rep { KeepsLimits rep.now }
    requires basis { IsOrderedBasis rep.now basis.now }
    requires column { k < size rep.now }
    ensures { AreCoordinates rep.now basis.now k result.items }
{
    let mut by_factor: ArrayVec<Column, 3> = ArrayVec::new();
    for factor in 0..rep.factors().count() {
        by_factor.push(coordinates_in(rep, factor, basis, k));
    }
    interleaved(by_factor.as_slice(), rep.rank())
}

/// The coordinates of column `k` in the ordered basis, in the factor.
fn coordinates_in(rep: &Rep, factor: usize, basis: &[u8], k: usize) -> Column
    requires is_rep { KeepsLimits rep.now }
    requires factor { factor < count rep.now }
    requires basis { IsOrderedBasis rep.now basis.now }
    requires column { k < size rep.now }
    ensures codes { IsColumn (order rep.now factor) rep.now.rank result.items }
    ensures combined { (i : ℕ) → i < rep.now.rank →
        combination (order rep.now factor) rep.now.rank (chosen rep.now basis.now factor) (slice_index result.items) i ≡ matrix rep.now factor i k }
{
    let columns = picked(rep, factor, basis);
    solve(
        rep.factors().field(factor),
        columns.as_slice(),
        &rep.factor_column(factor, k),
    )
}

/// The codes of the columns row by row, and column by column within a row.
fn interleaved(columns: &[Column], rank: usize) -> ProductColumn
    requires some { 0 < length columns.now }
    requires few { length columns.now ≤ 3 }
    requires rank { rank ≤ 6 }
    requires rows { (f : ℕ) → f < length columns.now → length (column columns.now f) ≡ rank }
    ensures rows { length result.items ≡ rank * length columns.now }
    ensures codes { (i f : ℕ) → i < rank → f < length columns.now →
        slice_index result.items (i * length columns.now + f) ≡ slice_index (column columns.now f) i }
{
    let count = columns.len();
    let mut codes = ArrayVec::new();
    for place in 0..rank * count {
        codes.push(columns[place % count][place / count]);
    }
    codes
}
