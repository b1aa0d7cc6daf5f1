ghost use Rattle.std.specs.Prelude.{◌≡◌, ◌<◌, ◌≤◌, ◌+◌, ◌*◌, ◌^◌, ◌↔◌, ◌==◌, ◌||◌, ℕ, IsTrue, IsFalse, MatchOption, length, slice_index};
ghost use Rattle.elimination.specs.Columns.{IsColumn};
ghost use Rattle.matroid_theory.specs.Field.{times};
ghost use Rattle.matroid_theory.specs.Rep.{size, count, column_of, KeepsLimits, IsStandard, IsProductColumn};
ghost use Rattle.matroid_theory.specs.Matrix.{size_below};
ghost use Rattle.matroid_theory.specs.Matroid.{members, IsIndependentIn, IsSimple, Agrees};
ghost use Rattle.matroid_theory.specs.Level.{followed_by, IsNormalised};
ghost use Rattle.column_sets.specs.Picked.{IsIndependentSet};
ghost use Rattle.extension.specs.Admissible.{IsAdmissible};
ghost use Rattle.extension.specs.Planes.{KnowsPlanes};
ghost use Rattle.extension.specs.Steps.{IsAlikeWith, IsRefused, with_new};

use crate::agreement::refusing_rows;
use crate::normalised::lead;
use crate::planes::Planes;
use arrayvec::ArrayVec;
use bases::FactorColumns;
use column_sets::{first_of_size, set_count};
use field_tables::{Column, Field, Mask};
use product_rep::{ProductColumn, Rep};

/// `None` where the representation followed by a normalised column is simple and its factors agree, and otherwise a number
/// of rows: it isn't so with any column that has the same first rows.
pub fn refused_rows(rep: &Rep, planes: &Option<Planes>, column: &ProductColumn) -> Option<usize>
    requires standard { IsStandard rep.now }
    requires simple { IsSimple rep.now }
    requires agrees { Agrees rep.now }
    requires room { size rep.now < 16 }
    requires planes { KnowsPlanes rep.now planes.now }
    requires normalised { IsNormalised rep.now.factors rep.now.rank column.now.items }
    ensures { MatchOption result (IsAdmissible rep.now column.now.items) (IsRefused rep.now column.now.items) }
{
    rep.laws();
    if let Some(rows) = unlike_rows(rep, planes, column) {
        return Some(rows);
    }
    if is_apart(rep, column) {
        None
    } else {
        Some(rep.rank())
    }
}

/// Whether in every factor the column is parallel to none of the representation.
fn is_apart(rep: &Rep, column: &ProductColumn) -> bool
    requires is_rep { KeepsLimits rep.now }
    requires room { size rep.now < 16 }
    requires normalised { IsNormalised rep.now.factors rep.now.rank column.now.items }
    ensures { IsTrue result ↔ ((f j : ℕ) → f < count rep.now → j < size rep.now →
        IsIndependentIn (followed_by rep.now column.now.items) f (λ k. (k == size rep.now) || (k == j))) }
{
    let factors = rep.factors();
    let lead = lead(column.as_slice(), factors.count(), rep.rank());
    for factor in 0..factors.count() {
        if !is_apart_in(rep, column, factor, lead) {
            return false;
        }
    }
    true
}

/// Whether in one factor the column, whose entry at the lead is 1, is parallel to none of the representation.
fn is_apart_in(rep: &Rep, column: &ProductColumn, factor: usize, lead: usize) -> bool
    requires is_rep { KeepsLimits rep.now }
    requires factor { factor < count rep.now }
    requires room { size rep.now < 16 }
    requires column { IsProductColumn rep.now.factors rep.now.rank column.now.items }
    requires lead { lead < rep.now.rank }
    requires one { slice_index column.now.items (lead * count rep.now + factor) ≡ 1 }
    ensures { IsTrue result ↔ ((j : ℕ) → j < size rep.now →
        IsIndependentIn (followed_by rep.now column.now.items) factor (λ k. (k == size rep.now) || (k == j))) }
{
    let field = rep.factors().field(factor);
    let part = part(rep, column, factor);
    for j in 0..rep.size() {
        if is_multiple(
            field,
            rep.factor_column(factor, j).as_slice(),
            part.as_slice(),
            lead,
        ) {
            return false;
        }
    }
    true
}

/// Whether the one column is a multiple of the other, whose code at the lead is 1.
fn is_multiple(field: Field, column: &[u8], of: &[u8], lead: usize) -> bool
    requires lead { lead < length of.now }
    requires column { IsColumn field (length of.now) column.now }
    requires of { IsColumn field (length of.now) of.now }
    ensures { IsTrue result ↔ ((i : ℕ) → i < length of.now →
        slice_index column.now i ≡ times field (slice_index column.now lead) (slice_index of.now i)) }
{
    for i in 0..of.len() {
        if column[i] != field.mul(column[lead], of[i]) {
            return false;
        }
    }
    true
}

/// One factor of the column.
pub fn part(rep: &Rep, column: &ProductColumn, factor: usize) -> Column
    requires is_rep { KeepsLimits rep.now }
    requires factor { factor < count rep.now }
    requires column { IsProductColumn rep.now.factors rep.now.rank column.now.items }
    ensures { result.items ≡ column_of (followed_by rep.now column.now.items) factor (size rep.now) }
{
    let codes = column.as_slice();
    let count = rep.factors().count();
    let mut part = ArrayVec::new();
    for i in 0..rep.rank() {
        part.push(codes[i * count + factor]);
    }
    part
}

/// `None` where each set of one column fewer than the rank is, together with the column, independent in every factor or in
/// none: the planes tell, and where they don't cover all sets, these are tested one by one. Otherwise a number of rows: it
/// isn't so with any column that has the same first rows.
fn unlike_rows(rep: &Rep, planes: &Option<Planes>, column: &ProductColumn) -> Option<usize>
    requires agrees { Agrees rep.now }
    requires room { size rep.now < 16 }
    requires planes { KnowsPlanes rep.now planes.now }
    requires normalised { IsNormalised rep.now.factors rep.now.rank column.now.items }
    ensures { MatchOption result (IsAlikeWith rep.now column.now.items) (IsRefused rep.now column.now.items) }
{
    rep.laws();
    let Some(planes) = planes else {
        return None;
    };
    if let Some(rows) = refusing_rows(rep, planes.list.as_slice(), column) {
        return Some(rows);
    }
    if planes.from < set_count(rep.size()) && !is_alike_one_by_one(rep, column) {
        return Some(rep.rank());
    }
    None
}

/// Whether each set of one column fewer than the rank is, together with the column, independent in every factor or in none:
/// they are tested one by one.
fn is_alike_one_by_one(rep: &Rep, column: &ProductColumn) -> bool
    requires room { size rep.now < 16 }
    requires column { IsProductColumn rep.now.factors rep.now.rank column.now.items }
    ensures { IsTrue result ↔ IsAlikeWith rep.now column.now.items }
{
    let mut longer = rep.copy();
    longer.push_column(column);
    has_alike_factors(rep, &longer)
}

/// Whether each set of one column fewer than the rank is, together with the last column of the longer representation,
/// independent in every factor of that one or in none.
fn has_alike_factors(rep: &Rep, longer: &Rep) -> bool
    requires { size rep.now < 16 }
    ensures { IsTrue result ↔ ((X f : ℕ) → X < 2 ^ size rep.now → size_below (size rep.now) (members X) + 1 ≡ rep.now.rank →
        f < count longer.now →
        (IsIndependentIn longer.now 0 (with_new rep.now (members X)) ↔ IsIndependentIn longer.now f (with_new rep.now (members X)))) }
{
    longer.laws();
    let first = FactorColumns::of(longer, 0);
    for factor in 1..longer.factors().count() {
        let other = FactorColumns::of(longer, factor);
        if !is_alike_in(rep, &first, &other) {
            return false;
        }
    }
    true
}

/// Whether each set of one column fewer than the rank is, together with the column after the last one, independent in both
/// factors or in none.
fn is_alike_in(rep: &Rep, first: &FactorColumns, other: &FactorColumns) -> bool
    requires { size rep.now < 16 }
    ensures { IsTrue result ↔ ((X : ℕ) → X < 2 ^ size rep.now → size_below (size rep.now) (members X) + 1 ≡ rep.now.rank →
        (IsIndependentSet first.now.field first.now.columns.items (with_new rep.now (members X)) ↔
        IsIndependentSet other.now.field other.now.columns.items (with_new rep.now (members X)))) }
{
    rep.laws();
    let size = rep.size();
    first_of_size(size, rep.rank() - 1, |set| {
        differs_with(first, other, size, set)
    })
    .is_none()
}

/// Whether the set is, together with one column, independent in one of the two factors alone.
fn differs_with(first: &FactorColumns, other: &FactorColumns, new: usize, set: Mask) -> bool
    requires { new < 16 }
    ensures { IsFalse result ↔ (IsIndependentSet first.now.field first.now.columns.items (λ j. (j == new) || members set j) ↔
        IsIndependentSet other.now.field other.now.columns.items (λ j. (j == new) || members set j)) }
{
    first.differs(other, set | 1 << new)
}
