//! Independence.
ghost use Rattle.std.specs.Prelude.{◌≤◌, ◌↔◌, length, IsTrue};
ghost use Rattle.elimination.specs.Columns.{height, AreColumns, AreIndependent};

use crate::clear::{clear_all, copies, height, pivot};
use field_tables::{Column, Field};

/// Whether the columns are independent: the only combination of them that is 0 has all coefficients 0.
pub fn independent(field: Field, columns: &[Column]) -> bool
    requires count { length columns.now ≤ 16 }
    requires columns { AreColumns field (height columns.now) columns.now }
    ensures { IsTrue result ↔ AreIndependent field (height columns.now) columns.now }
{
    field.laws();
    if height(columns) < columns.len() {
        return false;
    }
    let mut rest = copies(columns);
    while let Some(last) = rest.pop() {
        let Some(row) = pivot(&last) else {
            return false;
        };
        clear_all(field, rest.as_mut_slice(), &last, row);
    }
    true
}
