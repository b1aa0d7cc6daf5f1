//! One step of elimination: the multiples of a column are taken from the others.
ghost use Rattle.std.specs.Prelude.{◌≡◌, ◌≢◌, ◌<◌, ◌≤◌, ℕ, length, slice_index, MatchOption};
ghost use Rattle.matroid_theory.specs.Field.{plus, times, negative, inverse};
ghost use Rattle.elimination.specs.Columns.{height, AreColumns, IsColumn};
ghost use Rattle.elimination.specs.Cleared.{IsClearedBy, AreClearedBy};

use arrayvec::ArrayVec;
use field_tables::{Column, Field};
use small_lists::list_of;

/// The number of rows, which is that of the first column.
pub fn height(columns: &[Column]) -> usize
    ensures { result ≡ height columns.now }
{
    match columns.first() {
        Some(first) => first.len(),
        None => 0,
    }
}

/// The first row at which the column isn't 0.
pub fn pivot(column: &Column) -> Option<usize>
    ensures { MatchOption result ((i : ℕ) → slice_index column.now.items i ≡ 0) (λ row. (row < length column.now.items) × (slice_index column.now.items row ≢ 0)) }
{
    column.iter().position(|code| *code != 0)
}

/// Adds that multiple of `last` to `column`.
fn add_multiple(field: Field, column: &mut Column, factor: u8, last: &Column)
    requires column { IsColumn field (length last.now.items) column.old.items }
    requires last { IsColumn field (length last.now.items) last.now.items }
    requires factor { factor < field }
    ensures column { IsColumn field (length last.now.items) column.new.items }
    ensures sums { (i : ℕ) → i < length last.now.items → slice_index column.new.items i ≡ plus field (slice_index column.old.items i) (times field factor (slice_index last.now.items i)) }
{
    for i in 0..last.len() {
        column[i] = field.add(column[i], field.mul(factor, last[i]));
    }
}

/// Takes that multiple of `last` from `column` which makes its entry at `row` 0.
pub fn clear(field: Field, column: &mut Column, last: &Column, row: usize)
    requires column { IsColumn field (length last.now.items) column.old.items }
    requires last { IsColumn field (length last.now.items) last.now.items }
    requires row { row < length last.now.items }
    requires pivot { slice_index last.now.items row ≢ 0 }
    ensures cleared { IsClearedBy field row last.now.items column.old.items column.new.items }
{
    if column[row] == 0 {
        field.laws();
        return;
    }
    let factor = field.neg(field.mul(column[row], field.inv(last[row])));
    add_multiple(field, column, factor, last);
}

/// Clears each column at that row.
pub fn clear_all(field: Field, columns: &mut [Column], last: &Column, row: usize)
    requires columns { AreColumns field (length last.now.items) columns.old }
    requires last { IsColumn field (length last.now.items) last.now.items }
    requires row { row < length last.now.items }
    requires pivot { slice_index last.now.items row ≢ 0 }
    ensures cleared { AreClearedBy field row last.now.items columns.old columns.new }
{
    for column in columns.iter_mut() {
        clear(field, column, last, row);
    }
}

/// The same columns.
pub fn copies(columns: &[Column]) -> ArrayVec<Column, 16>
    requires { length columns.now ≤ 16 }
    ensures { result.items ≡ columns.now }
{
    let mut list = ArrayVec::new();
    for column in columns {
        list.push(list_of(column.as_slice()));
    }
    list
}
