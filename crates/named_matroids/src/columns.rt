//! The matroids of columns.
ghost use Rattle.std.specs.Prelude.{◌≤◌, ◌<◌, length};
ghost use Rattle.matroid_theory.specs.Field.{IsOrder};
ghost use Rattle.matroid_theory.specs.Given.{ColumnsOver, IsGivenBy};
ghost use Rattle.elimination.specs.Columns.{height, AreColumns};
ghost use Rattle.small_lists.specs.Lists.{lists};

use crate::minor::Minor;
use column_sets::few_bases_of_columns;
use elimination::rank;
use field_tables::{Column, Field};

/// The matroid of the columns: its bases are the sets of as many independent columns as their rank.
pub fn matroid_of(field: Field, columns: &[Column]) -> Minor
    requires some { 0 < length columns.now }
    requires few { length columns.now ≤ 10 }
    requires columns { AreColumns field (height columns.now) columns.now }
    ensures { IsGivenBy (ColumnsOver field (lists columns.now)) result }
{
    field.laws();
    let rank = rank(field, columns);
    let bases = few_bases_of_columns(field, columns, rank);
    Minor::of(rank as u8, columns.len() as u8, bases)
}

/// The matroid of the columns over the field of that order.
pub fn matroid_over(order: u8, columns: &[Column]) -> Minor
    requires order { IsOrder order }
    requires some { 0 < length columns.now }
    requires few { length columns.now ≤ 10 }
    requires columns { AreColumns order (height columns.now) columns.now }
    ensures { IsGivenBy (ColumnsOver order (lists columns.now)) result }
{
    match Field::of(order) {
        Some(field) => matroid_of(field, columns),
        None => unreachable!(),
    }
}
