// Columns as six rows of codes.
ghost use Rattle.std.specs.Prelude.{◌≡◌, ◌≢◌, ◌⊎◌, ◌<◌, ◌≤◌, ◌+◌, ◌*◌, ◌^◌, ◌==◌, ◌↔◌, if◌then◌else◌, ℕ, true, [], slice_index, slice_index_or, length};
ghost use Rattle.matroid_theory.specs.Field.{plus, times};
ghost use Rattle.matroid_theory.specs.Exchange.{exchange};
ghost use Rattle.form_states.specs.Codes.{AreCodes, AreColumnCodes, code, cleared_code, IsNormalisedFrom};
ghost use Rattle.form_states.specs.States.{AreLimits};

use crate::codes::{Codes, are_ones, are_zeros, inverse, laws, negative, product, sum_with};
use crate::states::Shape;

/// A column: the codes of its rows, of which those from the rank on are 0.
pub type Column = [Codes; 6];

/// The column whose sum with this is 0.
pub fn negative_column(shape: &Shape, column: &Column) -> Column
    requires limits { AreLimits shape.now.fields shape.now.count shape.now.rank shape.now.size }
    requires column { AreColumnCodes shape.now.fields column.now }
    ensures codes { AreColumnCodes shape.now.fields result }
    ensures zeros { (f i : ℕ) → f < shape.now.count → i < shape.now.rank → plus (slice_index shape.now.fields f) (code column.now f i) (code result f i) ≡ 0 }
{
    let mut negatives = *column;
    for i in 0..shape.rank {
        negatives[i] = negative(&shape.fields, shape.count, &column[i]);
    }
    negatives
}

/// The column cleared by the chosen column, of which `minus` is the negative, at row `p`, and with rows `p` and `k` exchanged.
pub fn pivoted_column(shape: &Shape, column: &Column, minus: &Column, p: usize, k: usize) -> Column
    requires limits { AreLimits shape.now.fields shape.now.count shape.now.rank shape.now.size }
    requires column { AreColumnCodes shape.now.fields column.now }
    requires minus { AreColumnCodes shape.now.fields minus.now }
    requires p { p < shape.now.rank }
    requires k { k < shape.now.rank }
    ensures codes { AreColumnCodes shape.now.fields result }
    ensures pivoted { (f i : ℕ) → f < shape.now.count → i < shape.now.rank → code result f i ≡ cleared_code shape.now.fields p (code minus.now) (code column.now) f (exchange p k i) }
{
    if are_zeros(shape.count, &column[p]) {
        return exchanged_column(shape, column, minus, p, k);
    }
    let mut pivoted = *column;
    for i in 0..shape.rank {
        pivoted[i] = cleared_row(shape, column, minus, p, exchanged(p, k, i));
    }
    pivoted
}

/// The column with rows `p` and `k` exchanged, where row `p` is 0, so that there is nothing to clear.
fn exchanged_column(shape: &Shape, column: &Column, minus: &Column, p: usize, k: usize) -> Column
    requires limits { AreLimits shape.now.fields shape.now.count shape.now.rank shape.now.size }
    requires column { AreColumnCodes shape.now.fields column.now }
    requires minus { AreColumnCodes shape.now.fields minus.now }
    requires p { p < shape.now.rank }
    requires k { k < shape.now.rank }
    requires zero { (f : ℕ) → f < shape.now.count → code column.now f p ≡ 0 }
    ensures codes { AreColumnCodes shape.now.fields result }
    ensures pivoted { (f i : ℕ) → f < shape.now.count → i < shape.now.rank → code result f i ≡ cleared_code shape.now.fields p (code minus.now) (code column.now) f (exchange p k i) }
{
    let mut pivoted = *column;
    for i in 0..shape.rank {
        pivoted[i] = kept_row(shape, column, minus, p, exchanged(p, k, i));
    }
    pivoted
}

/// Row `i` of a column that has nothing to clear.
#[inline(always)]
fn kept_row(shape: &Shape, column: &Column, minus: &Column, p: usize, i: usize) -> Codes
    requires limits { AreLimits shape.now.fields shape.now.count shape.now.rank shape.now.size }
    requires column { AreColumnCodes shape.now.fields column.now }
    requires zero { (f : ℕ) → f < shape.now.count → code column.now f p ≡ 0 }
    requires p { p < 6 }
    requires i { i < 6 }
    ensures codes { AreCodes shape.now.fields result }
    ensures cleared { (f : ℕ) → f < shape.now.count → slice_index result f ≡ cleared_code shape.now.fields p (code minus.now) (code column.now) f i }
{
    laws(&shape.fields);
    column[i]
}

/// Row `i`, or the other of `p` and `k` if it is one of these.
#[inline(always)]
fn exchanged(p: usize, k: usize, i: usize) -> usize
    ensures { result ≡ exchange p k i }
{
    if i == p {
        k
    } else if i == k {
        p
    } else {
        i
    }
}

/// Row `i` of the cleared column.
#[inline(always)]
fn cleared_row(shape: &Shape, column: &Column, minus: &Column, p: usize, i: usize) -> Codes
    requires limits { AreLimits shape.now.fields shape.now.count shape.now.rank shape.now.size }
    requires column { AreColumnCodes shape.now.fields column.now }
    requires minus { AreColumnCodes shape.now.fields minus.now }
    requires p { p < 6 }
    requires i { i < 6 }
    ensures codes { AreCodes shape.now.fields result }
    ensures cleared { (f : ℕ) → f < shape.now.count → slice_index result f ≡ cleared_code shape.now.fields p (code minus.now) (code column.now) f i }
{
    if i == p {
        column[p]
    } else {
        sum_with(
            &shape.fields,
            shape.count,
            &column[i],
            &column[p],
            &minus[i],
        )
    }
}

/// The column with each row multiplied.
pub fn scaled_column(shape: &Shape, column: &Column, by: &Column) -> Column
    requires limits { AreLimits shape.now.fields shape.now.count shape.now.rank shape.now.size }
    requires column { AreColumnCodes shape.now.fields column.now }
    requires by { AreColumnCodes shape.now.fields by.now }
    ensures codes { AreColumnCodes shape.now.fields result }
    ensures products { (f i : ℕ) → f < shape.now.count → i < shape.now.rank → code result f i ≡ times (slice_index shape.now.fields f) (code by.now f i) (code column.now f i) }
{
    let mut products = *column;
    for i in 0..shape.rank {
        products[i] = product(&shape.fields, shape.count, &by[i], &column[i]);
    }
    products
}

/// The column with all rows multiplied by the same factors.
fn multiplied_column(shape: &Shape, column: &Column, by: &Codes) -> Column
    requires limits { AreLimits shape.now.fields shape.now.count shape.now.rank shape.now.size }
    requires column { AreColumnCodes shape.now.fields column.now }
    requires by { AreCodes shape.now.fields by.now }
    ensures codes { AreColumnCodes shape.now.fields result }
    ensures products { (f i : ℕ) → f < shape.now.count → i < shape.now.rank → code result f i ≡ times (slice_index shape.now.fields f) (slice_index by.now f) (code column.now f i) }
{
    let mut products = *column;
    for i in 0..shape.rank {
        products[i] = product(&shape.fields, shape.count, by, &column[i]);
    }
    products
}

/// A multiple of the column whose first row that isn't 0 is 1.
pub fn normalised_column(shape: &Shape, column: &Column) -> Column
    requires limits { AreLimits shape.now.fields shape.now.count shape.now.rank shape.now.size }
    requires column { AreColumnCodes shape.now.fields column.now }
    ensures codes { AreColumnCodes shape.now.fields result }
    ensures normalised { IsNormalisedFrom shape.now.fields shape.now.count shape.now.rank (code column.now) (code result) }
{
    laws(&shape.fields);
    let p = lead(column, shape.rank);
    if p == shape.rank {
        return *column;
    }
    if are_ones(shape.count, &column[p]) {
        return *column;
    }
    multiplied_column(
        shape,
        column,
        &inverse(&shape.fields, shape.count, &column[p]),
    )
}

/// The column after a pivot, with each row multiplied, normalised.
pub fn next_column(
    shape: &Shape,
    column: &Column,
    minus: &Column,
    p: usize,
    k: usize,
    by: &Column,
) -> Column
    requires limits { AreLimits shape.now.fields shape.now.count shape.now.rank shape.now.size }
    requires column { AreColumnCodes shape.now.fields column.now }
    requires minus { AreColumnCodes shape.now.fields minus.now }
    requires p { p < shape.now.rank }
    requires k { k < shape.now.rank }
    requires by { AreColumnCodes shape.now.fields by.now }
    ensures codes { AreColumnCodes shape.now.fields result }
    ensures normalised { IsNormalisedFrom shape.now.fields shape.now.count shape.now.rank
        (λ f i. times (slice_index shape.now.fields f) (code by.now f i) (cleared_code shape.now.fields p (code minus.now) (code column.now) f (exchange p k i))) (code result) }
{
    let pivoted = pivoted_column(shape, column, minus, p, k);
    normalised_column(shape, &scaled_column(shape, &pivoted, by))
}

/// Whether all rows are 1, so that to multiply by them changes nothing.
pub fn are_all_ones(shape: &Shape, by: &Column) -> bool
    requires limits { AreLimits shape.now.fields shape.now.count shape.now.rank shape.now.size }
    ensures { result ≡ true → (f i : ℕ) → f < shape.now.count → i < shape.now.rank → code by.now f i ≡ 1 }
{
    for i in 0..shape.rank {
        if !are_ones(shape.count, &by[i]) {
            return false;
        }
    }
    true
}

/// The first row before `end` whose first code isn't 0; `end` where there is none.
pub fn lead(column: &Column, end: usize) -> usize
    requires { end ≤ 6 }
    ensures within { result ≤ end }
    ensures zeros { (i : ℕ) → i < result → code column.now 0 i ≡ 0 }
    ensures nonzero { result < end → code column.now 0 result ≢ 0 }
{
    for i in 0..end {
        if column[i][0] != 0 {
            return i;
        }
    }
    end
}

/// Whether the columns have the same codes in the rows before `end`.
pub fn agree_before(count: usize, a: &Column, b: &Column, end: usize) -> bool
    requires count { count ≤ 3 }
    requires end { end ≤ 6 }
    ensures { (result ≡ true) ↔ ((f i : ℕ) → f < count → i < end → code a.now f i ≡ code b.now f i) }
{
    for i in 0..end {
        if !same_codes(count, &a[i], &b[i]) {
            return false;
        }
    }
    true
}

/// Whether the codes of the factors are the same.
#[inline(always)]
fn same_codes(count: usize, a: &Codes, b: &Codes) -> bool
    requires { count ≤ 3 }
    ensures { (result ≡ true) ↔ ((f : ℕ) → f < count → slice_index a.now f ≡ slice_index b.now f) }
{
    (count < 1 || a[0] == b[0]) && (count < 2 || a[1] == b[1]) && (count < 3 || a[2] == b[2])
}
