//! The columns of a set, picked out in a list.
ghost use Rattle.std.specs.Prelude.{◌≤◌, ◌↔◌, length, IsTrue, IfOk};
ghost use Rattle.matroid_theory.specs.Matroid.{members};
ghost use Rattle.elimination.specs.Columns.{column, height, AreColumns};
ghost use Rattle.column_sets.specs.Picked.{ArePicked, IsBasisOfColumns, IsIndependentSet};
ghost use Rattle.column_sets.specs.Sets.{AreMasks};

use crate::sets::{FewSets, few_sets_of_size, in_set, sets_of_size};
use arrayvec::ArrayVec;
use elimination::independent;
use field_tables::{Column, Field, Mask};
use small_lists::list_of;
use std::alloc::{AllocError, Global};

/// The columns that are in the set, in their order.
pub fn picked(columns: &[Column], set: Mask) -> ArrayVec<Column, 16>
    requires { length columns.now ≤ 16 }
    ensures { ArePicked (column columns.now) (length columns.now) (members set) result.items }
{
    let mut list = ArrayVec::new();
    for j in 0..columns.len() {
        if in_set(set, j) {
            list.push(list_of(columns[j].as_slice()));
        }
    }
    list
}

/// Whether the columns in the set are independent. Numbers beyond the last column don't count.
pub fn independent_in(field: Field, columns: &[Column], set: Mask) -> bool
    requires count { length columns.now ≤ 16 }
    requires columns { AreColumns field (height columns.now) columns.now }
    ensures { IsTrue result ↔ IsIndependentSet field columns.now (members set) }
{
    field.laws();
    let columns = picked(columns, set);
    independent(field, columns.as_slice())
}

/// The bases of columns of that rank, from the lowest mask up.
///
/// # Errors
///
/// `AllocError` where there was no memory for the list.
pub fn bases_of_columns(
    alloc: Global,
    field: Field,
    columns: &[Column],
    rank: usize,
) -> Result<Vec<Mask>, AllocError>
    requires count { length columns.now ≤ 16 }
    requires columns { AreColumns field (height columns.now) columns.now }
    ensures { IfOk result (λ v. AreMasks (length columns.now) (λ X. IsBasisOfColumns field rank columns.now (members X)) v.items) }
{
    sets_of_size(
        alloc,
        columns.len(),
        rank,
        |set| independent_in(field, columns, set),
    )
}

/// The bases of at most 10 columns of that rank, from the lowest mask up. It takes no memory.
pub fn few_bases_of_columns(field: Field, columns: &[Column], rank: usize) -> FewSets
    requires few { length columns.now ≤ 10 }
    requires columns { AreColumns field (height columns.now) columns.now }
    ensures { AreMasks (length columns.now) (λ X. IsBasisOfColumns field rank columns.now (members X)) result.items }
{
    few_sets_of_size(
        columns.len(),
        rank,
        |set| independent_in(field, columns, set),
    )
}
