//! Whether the bases are kept: the sets of which the last entry tells whether they are independent.
ghost use Rattle.std.specs.Prelude.{◌≡◌, ◌<◌, ◌≤◌, ◌-◌, ◌^◌, ◌↔◌, ℕ, length, IsTrue};
ghost use Rattle.column_sets.specs.Sets.{IsSetOfSize};
ghost use Rattle.represent.specs.Sought.{matroid_of, IsSought};
ghost use Rattle.represent.specs.Filled.{row_at, column_at, AreCodes};
ghost use Rattle.represent.specs.Kept.{IsToldWith, KeepsLast, KeepsSet, KeepsWith, IsWithin};

use crate::matrix::filled;
use crate::target::{Codes, Target};
use bases::FactorColumns;
use column_sets::{first_of_size, first_set};
use field_tables::Mask;

/// The row and the column of an entry.
#[derive(Clone, Copy)]
pub struct Place {
    pub row: u8,
    pub column: u8,
}

/// Whether each set that is told at the last entry is a base of the matrix exactly where it is one of those sought.
///
/// The sets that lack few of the unit columns come first, since almost all wrong codes fall there.
pub(crate) fn keeps_bases(target: &Target, codes: &Codes) -> bool
    requires sought { IsSought target.now.order (matroid_of target.now) }
    requires codes { AreCodes target.now.order (matroid_of target.now) codes.now.items }
    requires some { 0 < length codes.now.items }
    ensures { IsTrue result ↔ KeepsLast target.now.order (matroid_of target.now) codes.now.items }
{
    let matrix = FactorColumns::of(&filled(target, codes), 0);
    let place = place_of(target.rank, codes.len() - 1);
    for count in 0..=usize::from(place.column - target.rank) {
        if !keeps_with(target, &matrix, place, count) {
            return false;
        }
    }
    true
}

/// Where the code at that place of the list stands in the matrix.
fn place_of(rank: u8, place: usize) -> Place
    requires rank { 0 < rank }
    requires low { rank ≤ 6 }
    requires place { place < 60 }
    ensures row { result.row ≡ row_at rank place }
    ensures column { result.column ≡ column_at rank place }
{
    let row = place as u8 % rank;
    let column = rank + place as u8 / rank;
    Place { row, column }
}

/// Whether the sets that have so many of the later columns before the place are bases exactly where they should be.
fn keeps_with(target: &Target, matrix: &FactorColumns, place: Place, count: usize) -> bool
    requires { IsWithin (matroid_of target.now) place }
    ensures { IsTrue result ↔ ((later : ℕ) → IsSetOfSize (place.column - target.now.rank) count later →
        KeepsWith (matroid_of target.now) matrix.now place later) }
{
    let before = usize::from(place.column - target.rank);
    first_of_size(
        before,
        count,
        |later| !keeps_later(target, matrix, place, later),
    )
    .is_none()
}

/// Whether the sets that have these of the later columns are bases exactly where they should be.
fn keeps_later(target: &Target, matrix: &FactorColumns, place: Place, later: Mask) -> bool
    requires place { IsWithin (matroid_of target.now) place }
    requires later { later < 2 ^ (place.column - target.now.rank) }
    ensures { IsTrue result ↔ KeepsWith (matroid_of target.now) matrix.now place later }
{
    first_set(
        usize::from(place.row),
        |units| !keeps_set(target, matrix, place, units, later),
    )
    .is_none()
}

/// Whether the set with these unit columns and later columns is a base exactly where it should be, or has another number of
/// elements.
fn keeps_set(
    target: &Target,
    matrix: &FactorColumns,
    place: Place,
    units: Mask,
    later: Mask,
) -> bool
    requires place { IsWithin (matroid_of target.now) place }
    requires units { units < 2 ^ place.row }
    requires later { later < 2 ^ (place.column - target.now.rank) }
    ensures { IsTrue result ↔ ((X : ℕ) → IsToldWith target.now.rank place units later X →
        KeepsSet (matroid_of target.now) matrix.now X) }
{
    let set = told_set(target.rank, place, units, later);
    set.count_ones() != u32::from(target.rank)
        || target.bases.contains(set) == matrix.is_independent(set)
}

/// These unit columns before the row of the place, all those after it, these of the later columns, and the column of the place.
fn told_set(rank: u8, place: Place, units: Mask, later: Mask) -> Mask
    requires rank { rank ≤ 6 }
    requires row { place.row < rank }
    requires past { rank ≤ place.column }
    requires column { place.column < 16 }
    requires units { units < 2 ^ place.row }
    requires later { later < 2 ^ (place.column - rank) }
    ensures { IsToldWith rank place units later result }
{
    let after = (1 << rank) - (2 << place.row);
    units | after | later << rank | 1 << place.column
}
