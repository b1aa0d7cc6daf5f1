// Groups of rows, which have one factor each.
ghost use Rattle.std.specs.Prelude.{◌≡◌, ◌≢◌, ◌<◌, ◌≤◌, ℕ, List, Bool, true, false, if◌then◌else◌, ◌==◌, ◌↔◌, [], slice_index, slice_index_or};
ghost use Rattle.matroid_theory.specs.Field.{times};
ghost use Rattle.form_states.specs.Codes.{AreCodes, AreColumnCodes, code};
ghost use Rattle.form_states.specs.Groups.{AreGroupFactors, MarksGroups};
ghost use Rattle.form_states.specs.States.{AreGroups, AreLimits};

use crate::codes::inverse;
use crate::columns::{Column, lead};
use crate::states::Shape;

/// The group of each row: a number below 6.
pub type Groups = [u8; 6];

/// For each group factors that aren't 0 and make 1 of its first codes in the column that aren't 0.
pub fn group_factors(shape: &Shape, column: &Column, groups: &Groups) -> Column
    requires limits { AreLimits shape.now.fields shape.now.count shape.now.rank shape.now.size }
    requires column { AreColumnCodes shape.now.fields column.now }
    requires groups { AreGroups groups.now }
    ensures codes { AreColumnCodes shape.now.fields result }
    ensures factors { AreGroupFactors shape.now.fields shape.now.count (slice_index groups.now) shape.now.rank (code column.now) (code result) }
{
    let mut factors = [[1; 3]; 6];
    let mut seen = [false; 6];
    for i in 0..shape.rank {
        let group = groups[i] as usize;
        if begins(column[i][0], seen[group]) {
            factors[group] = inverse(&shape.fields, shape.count, &column[i]);
            seen[group] = true;
        }
    }
    factors
}

/// Whether a row isn't 0, and is the first of its group.
fn begins(code: u8, seen: bool) -> bool
    ensures { (result ≡ true) ↔ ((code ≢ 0) × (seen ≡ false)) }
{
    code != 0 && !seen
}

/// The factor of each row: that of its group.
pub fn row_factors(factors: &Column, groups: &Groups) -> Column
    requires groups { AreGroups groups.now }
    ensures { (i : ℕ) → i < 6 → slice_index_or result i [] ≡ slice_index_or factors.now (slice_index groups.now i) [] }
{
    let mut rows = *factors;
    for i in 0..6 {
        rows[i] = factors[groups[i] as usize];
    }
    rows
}

/// Marks the groups that have a row where the column isn't 0.
fn met_groups(column: &Column, groups: &Groups, rank: usize) -> [bool; 6]
    requires rank { rank ≤ 6 }
    requires groups { AreGroups groups.now }
    ensures { MarksGroups (slice_index groups.now) rank (code column.now) result }
{
    let mut met = [false; 6];
    for i in 0..rank {
        if column[i][0] != 0 {
            met[groups[i] as usize] = true;
        }
    }
    met
}

/// The groups after a column ties those that it meets.
pub fn tied_groups(column: &Column, groups: &Groups, rank: usize) -> Groups
    requires rank { rank ≤ 6 }
    requires groups { AreGroups groups.now }
    ensures groups { AreGroups result }
    ensures none { ((i : ℕ) → i < rank → code column.now 0 i ≡ 0) → result ≡ groups.now }
    ensures tied { (met : List Bool) × MarksGroups (slice_index groups.now) rank (code column.now) met
        × ((p : ℕ) → p < rank → ((i : ℕ) → i < p → code column.now 0 i ≡ 0) → code column.now 0 p ≢ 0 → (i : ℕ) → i < 6 →
        slice_index result i ≡ (if slice_index_or met (slice_index groups.now i) false then slice_index groups.now p else slice_index groups.now i)) }
{
    let met = met_groups(column, groups, rank);
    let p = lead(column, rank);
    if p == rank {
        return *groups;
    }
    tied_to(&met, groups, groups[p])
}

/// The groups with those that are marked replaced by this one.
fn tied_to(met: &[bool; 6], groups: &Groups, group: u8) -> Groups
    requires groups { AreGroups groups.now }
    requires group { group < 6 }
    ensures groups { AreGroups result }
    ensures tied { (i : ℕ) → i < 6 → slice_index result i ≡ (if slice_index_or met.now (slice_index groups.now i) false then group else slice_index groups.now i) }
{
    let mut tied = *groups;
    for i in 0..6 {
        if met[groups[i] as usize] {
            tied[i] = group;
        }
    }
    tied
}
