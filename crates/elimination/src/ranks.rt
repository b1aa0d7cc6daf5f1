//! Ranks.
ghost use Rattle.std.specs.Prelude.{◌≤◌, length};
ghost use Rattle.elimination.specs.Columns.{height, AreColumns, IsRankOfColumns};

use crate::clear::{clear_all, copies, height, pivot};
use field_tables::{Column, Field};

/// The rank of the columns: the greatest size of an independent set of them.
pub fn rank(field: Field, columns: &[Column]) -> usize
    requires count { length columns.now ≤ 16 }
    requires columns { AreColumns field (height columns.now) columns.now }
    ensures { IsRankOfColumns field (height columns.now) columns.now result }
{
    field.laws();
    let rows = height(columns);
    let mut rest = copies(columns);
    let mut found = 0;
    while let Some(last) = rest.pop() {
        if let Some(row) = pivot(&last) {
            found += 1;
            if found == rows {
                return found;
            }
            clear_all(field, rest.as_mut_slice(), &last, row);
        }
    }
    found
}
