// Sixteen columns at a time, with their marks. What isn't marked is left as it is.
ghost use Rattle.std.specs.Prelude.{◌≡◌, ◌≢◌, ◌<◌, ◌≤◌, ◌+◌, ◌*◌, ◌/◌, ◌%◌, ◌↔◌, ◌⊎◌, [], ℕ, IsTrue, true, false, slice_index, slice_index_or, slice_set};
ghost use Rattle.std.specs.Option.{MatchOption};
ghost use Rattle.matroid_theory.specs.Field.{times};
ghost use Rattle.matroid_theory.specs.Exchange.{exchange};
ghost use Rattle.form_trails.specs.Numbers.{weighed};
ghost use Rattle.form_states.specs.Codes.{AreColumnCodes, code, cleared_code, IsNormalisedFrom};
ghost use Rattle.form_states.specs.States.{AreLimits, AreColumns, AreGroups, IsScaledNumber, IsLeastMarked, HasHead, HasOtherHead, marked};

use crate::codes::{are_binary, laws};
use crate::columns::{
    Column, agree_before, are_all_ones, next_column, normalised_column, pivoted_column,
    scaled_column,
};
use crate::groups::{Groups, group_factors, row_factors};
use crate::states::Shape;
use crate::weights::number;

/// Sixteen columns.
pub type Columns = [Column; 16];

/// A mark for each of sixteen elements.
pub type Marks = [bool; 16];

/// Each marked column cleared by the chosen column at row `p`, with rows `p` and `k` exchanged.
pub fn pivoted_columns(
    shape: &Shape,
    columns: &Columns,
    marks: &Marks,
    minus: &Column,
    p: usize,
    k: usize,
) -> Columns
    requires limits { AreLimits shape.now.fields shape.now.count shape.now.rank shape.now.size }
    requires columns { AreColumns shape.now.fields columns.now }
    requires minus { AreColumnCodes shape.now.fields minus.now }
    requires p { p < shape.now.rank }
    requires k { k < shape.now.rank }
    ensures codes { AreColumns shape.now.fields result }
    ensures pivoted { (e : ℕ) → e < shape.now.size → slice_index_or marks.now e false ≡ true →
        (f i : ℕ) → f < shape.now.count → i < shape.now.rank →
        code (slice_index_or result e []) f i ≡ cleared_code shape.now.fields p (code minus.now) (code (slice_index_or columns.now e [])) f (exchange p k i) }
{
    let mut pivoted = *columns;
    for e in 0..shape.size {
        pivoted[e] = marked_pivot(shape, &columns[e], marks[e], minus, p, k);
    }
    pivoted
}

/// The column after the pivot, if it is marked.
fn marked_pivot(
    shape: &Shape,
    column: &Column,
    mark: bool,
    minus: &Column,
    p: usize,
    k: usize,
) -> Column
    requires limits { AreLimits shape.now.fields shape.now.count shape.now.rank shape.now.size }
    requires column { AreColumnCodes shape.now.fields column.now }
    requires minus { AreColumnCodes shape.now.fields minus.now }
    requires p { p < shape.now.rank }
    requires k { k < shape.now.rank }
    ensures codes { AreColumnCodes shape.now.fields result }
    ensures pivoted { mark ≡ true → (f i : ℕ) → f < shape.now.count → i < shape.now.rank →
        code result f i ≡ cleared_code shape.now.fields p (code minus.now) (code column.now) f (exchange p k i) }
{
    if !mark {
        return *column;
    }
    pivoted_column(shape, column, minus, p, k)
}

/// Each marked column after the pivot, with its rows multiplied, normalised.
pub fn next_columns(
    shape: &Shape,
    columns: &Columns,
    marks: &Marks,
    minus: &Column,
    p: usize,
    k: usize,
    by: &Column,
) -> Columns
    requires limits { AreLimits shape.now.fields shape.now.count shape.now.rank shape.now.size }
    requires columns { AreColumns shape.now.fields columns.now }
    requires minus { AreColumnCodes shape.now.fields minus.now }
    requires p { p < shape.now.rank }
    requires k { k < shape.now.rank }
    requires by { AreColumnCodes shape.now.fields by.now }
    ensures codes { AreColumns shape.now.fields result }
    ensures normalised { (e : ℕ) → e < shape.now.size → slice_index_or marks.now e false ≡ true →
        IsNormalisedFrom shape.now.fields shape.now.count shape.now.rank
        (λ f i. times (slice_index shape.now.fields f) (code by.now f i) (cleared_code shape.now.fields p (code minus.now) (code (slice_index_or columns.now e [])) f (exchange p k i)))
        (code (slice_index_or result e [])) }
{
    laws(&shape.fields);
    if are_all_ones(shape, by) {
        return normalised_pivots(shape, columns, marks, minus, p, k);
    }
    let mut next = *columns;
    for e in 0..shape.size {
        next[e] = marked_next(shape, &columns[e], marks[e], minus, p, k, by);
    }
    next
}

/// Each marked column after the pivot, normalised.
fn normalised_pivots(
    shape: &Shape,
    columns: &Columns,
    marks: &Marks,
    minus: &Column,
    p: usize,
    k: usize,
) -> Columns
    requires limits { AreLimits shape.now.fields shape.now.count shape.now.rank shape.now.size }
    requires columns { AreColumns shape.now.fields columns.now }
    requires minus { AreColumnCodes shape.now.fields minus.now }
    requires p { p < shape.now.rank }
    requires k { k < shape.now.rank }
    ensures codes { AreColumns shape.now.fields result }
    ensures normalised { (e : ℕ) → e < shape.now.size → slice_index_or marks.now e false ≡ true →
        IsNormalisedFrom shape.now.fields shape.now.count shape.now.rank
        (λ f i. cleared_code shape.now.fields p (code minus.now) (code (slice_index_or columns.now e [])) f (exchange p k i)) (code (slice_index_or result e [])) }
{
    let mut next = *columns;
    for e in 0..shape.size {
        next[e] = normalised_pivot(shape, &columns[e], marks[e], minus, p, k);
    }
    next
}

/// The column after the pivot, normalised, if it is marked.
fn normalised_pivot(
    shape: &Shape,
    column: &Column,
    mark: bool,
    minus: &Column,
    p: usize,
    k: usize,
) -> Column
    requires limits { AreLimits shape.now.fields shape.now.count shape.now.rank shape.now.size }
    requires column { AreColumnCodes shape.now.fields column.now }
    requires minus { AreColumnCodes shape.now.fields minus.now }
    requires p { p < shape.now.rank }
    requires k { k < shape.now.rank }
    ensures codes { AreColumnCodes shape.now.fields result }
    ensures normalised { mark ≡ true → IsNormalisedFrom shape.now.fields shape.now.count shape.now.rank
        (λ f i. cleared_code shape.now.fields p (code minus.now) (code column.now) f (exchange p k i)) (code result) }
{
    if !mark {
        return *column;
    }
    normalised_column(shape, &pivoted_column(shape, column, minus, p, k))
}

/// The column after the pivot, with its rows multiplied, normalised, if it is marked.
fn marked_next(
    shape: &Shape,
    column: &Column,
    mark: bool,
    minus: &Column,
    p: usize,
    k: usize,
    by: &Column,
) -> Column
    requires limits { AreLimits shape.now.fields shape.now.count shape.now.rank shape.now.size }
    requires column { AreColumnCodes shape.now.fields column.now }
    requires minus { AreColumnCodes shape.now.fields minus.now }
    requires p { p < shape.now.rank }
    requires k { k < shape.now.rank }
    requires by { AreColumnCodes shape.now.fields by.now }
    ensures codes { AreColumnCodes shape.now.fields result }
    ensures normalised { mark ≡ true → IsNormalisedFrom shape.now.fields shape.now.count shape.now.rank
        (λ f i. times (slice_index shape.now.fields f) (code by.now f i) (cleared_code shape.now.fields p (code minus.now) (code column.now) f (exchange p k i))) (code result) }
{
    if !mark {
        return *column;
    }
    next_column(shape, column, minus, p, k, by)
}

/// Each column normalised.
pub fn normalised_columns(shape: &Shape, columns: &Columns) -> Columns
    requires limits { AreLimits shape.now.fields shape.now.count shape.now.rank shape.now.size }
    requires columns { AreColumns shape.now.fields columns.now }
    ensures codes { AreColumns shape.now.fields result }
    ensures normalised { (e : ℕ) → e < shape.now.size →
        IsNormalisedFrom shape.now.fields shape.now.count shape.now.rank (code (slice_index_or columns.now e [])) (code (slice_index_or result e [])) }
{
    let mut normalised = *columns;
    for e in 0..shape.size {
        normalised[e] = normalised_column(shape, &columns[e]);
    }
    normalised
}

/// Marks the elements but `b` whose columns agree with `base` before row `end`.
pub fn heads(
    shape: &Shape,
    columns: &Columns,
    there: &Marks,
    base: &Column,
    end: usize,
    b: usize,
) -> Marks
    requires limits { AreLimits shape.now.fields shape.now.count shape.now.rank shape.now.size }
    requires end { end ≤ 6 }
    ensures { (e : ℕ) → e < shape.now.size → (slice_index_or result e false ≡ true) ↔ HasHead shape.now.count columns.now there.now base.now end b e }
{
    let mut marks = [false; 16];
    for e in 0..shape.size {
        marks[e] = has_head(shape.count, &columns[e], there[e], base, end, e != b);
    }
    marks
}

/// Marks the elements but `b` that are there and aren't of the class.
pub fn other_heads(
    shape: &Shape,
    columns: &Columns,
    there: &Marks,
    base: &Column,
    end: usize,
    b: usize,
    class: &Marks,
) -> Marks
    requires limits { AreLimits shape.now.fields shape.now.count shape.now.rank shape.now.size }
    requires class { (e : ℕ) → e < shape.now.size → (slice_index_or class.now e false ≡ true) ↔ HasHead shape.now.count columns.now there.now base.now end b e }
    ensures { (e : ℕ) → e < shape.now.size → (slice_index_or result e false ≡ true) ↔ HasOtherHead shape.now.count columns.now there.now base.now end b e }
{
    let mut marks = [false; 16];
    for e in 0..shape.size {
        marks[e] = is_other(there[e], class[e], e != b);
    }
    marks
}

/// Whether it is another element that is there, and its column agrees.
fn has_head(
    count: usize,
    column: &Column,
    there: bool,
    base: &Column,
    end: usize,
    is_other: bool,
) -> bool
    requires count { count ≤ 3 }
    requires end { end ≤ 6 }
    ensures { (result ≡ true) ↔ ((there ≡ true) × (is_other ≡ true) × ((f i : ℕ) → f < count → i < end → code column.now f i ≡ code base.now f i)) }
{
    there && is_other && agree_before(count, column, base, end)
}

/// Whether it is another element that is there, and isn't of the class.
fn is_other(there: bool, of_class: bool, is_other: bool) -> bool
    ensures { (result ≡ true) ↔ ((there ≡ true) × (is_other ≡ true) × (of_class ≡ false)) }
{
    there && is_other && !of_class
}

/// The marks without that of `e`.
pub fn without(marks: &Marks, e: usize) -> Marks
    requires below { e < 16 }
    requires marked { slice_index_or marks.now e false ≡ true }
    ensures marks { result ≡ slice_set marks.now e false }
    ensures within { (i : ℕ) → slice_index_or result i false ≡ true → slice_index_or marks.now i false ≡ true }
    ensures fewer { marked result < marked marks.now }
{
    let mut fewer = *marks;
    fewer[e] = false;
    fewer
}

/// The numbers of the marked columns with their rows multiplied, scaled by groups.
pub fn marked_numbers(
    shape: &Shape,
    columns: &Columns,
    marks: &Marks,
    by: &Column,
    groups: &Groups,
) -> [u128; 16]
    requires limits { AreLimits shape.now.fields shape.now.count shape.now.rank shape.now.size }
    requires columns { AreColumns shape.now.fields columns.now }
    requires by { AreColumnCodes shape.now.fields by.now }
    requires groups { AreGroups groups.now }
    ensures { (e : ℕ) → e < shape.now.size → slice_index_or marks.now e false ≡ true →
        IsScaledNumber shape.now.fields (slice_index groups.now) shape.now.count shape.now.rank
        (λ f i. times (slice_index shape.now.fields f) (code by.now f i) (code (slice_index_or columns.now e []) f i)) (slice_index result e) }
{
    laws(&shape.fields);
    if scales_nothing(shape, by) {
        return own_numbers(shape, columns, marks);
    }
    scaled_numbers(shape, columns, marks, by, groups)
}

/// The same, column by column.
fn scaled_numbers(
    shape: &Shape,
    columns: &Columns,
    marks: &Marks,
    by: &Column,
    groups: &Groups,
) -> [u128; 16]
    requires limits { AreLimits shape.now.fields shape.now.count shape.now.rank shape.now.size }
    requires columns { AreColumns shape.now.fields columns.now }
    requires by { AreColumnCodes shape.now.fields by.now }
    requires groups { AreGroups groups.now }
    ensures { (e : ℕ) → e < shape.now.size → slice_index_or marks.now e false ≡ true →
        IsScaledNumber shape.now.fields (slice_index groups.now) shape.now.count shape.now.rank
        (λ f i. times (slice_index shape.now.fields f) (code by.now f i) (code (slice_index_or columns.now e []) f i)) (slice_index result e) }
{
    let mut numbers = [0; 16];
    for e in 0..shape.size {
        numbers[e] = marked_number(shape, &columns[e], marks[e], by, groups);
    }
    numbers
}

/// Whether these factors are 1, and those of groups are: over GF(2) no others are there.
fn scales_nothing(shape: &Shape, by: &Column) -> bool
    requires { AreLimits shape.now.fields shape.now.count shape.now.rank shape.now.size }
    ensures binary { result ≡ true → (f : ℕ) → f < 3 → slice_index shape.now.fields f ≡ 2 }
    ensures ones { result ≡ true → (f i : ℕ) → f < shape.now.count → i < shape.now.rank → code by.now f i ≡ 1 }
{
    are_binary(&shape.fields) && are_all_ones(shape, by)
}

/// The numbers of the marked columns as they are: over GF(2) nothing is scaled.
fn own_numbers(shape: &Shape, columns: &Columns, marks: &Marks) -> [u128; 16]
    requires limits { AreLimits shape.now.fields shape.now.count shape.now.rank shape.now.size }
    requires columns { AreColumns shape.now.fields columns.now }
    ensures { (e : ℕ) → e < shape.now.size → slice_index_or marks.now e false ≡ true →
        slice_index result e ≡ weighed (λ i. code (slice_index_or columns.now e []) (i % shape.now.count) (i / shape.now.count)) (shape.now.rank * shape.now.count) }
{
    let mut numbers = [0; 16];
    for e in 0..shape.size {
        numbers[e] = own_number(shape, &columns[e], marks[e]);
    }
    numbers
}

/// The number of the column, if it is marked.
fn own_number(shape: &Shape, column: &Column, mark: bool) -> u128
    requires limits { AreLimits shape.now.fields shape.now.count shape.now.rank shape.now.size }
    requires column { AreColumnCodes shape.now.fields column.now }
    ensures { mark ≡ true → result ≡ weighed (λ i. code column.now (i % shape.now.count) (i / shape.now.count)) (shape.now.rank * shape.now.count) }
{
    if !mark {
        return 0;
    }
    number(column, shape.count, shape.rank)
}

/// The number of the column with its rows multiplied, scaled by groups, if it is marked.
fn marked_number(shape: &Shape, column: &Column, mark: bool, by: &Column, groups: &Groups) -> u128
    requires limits { AreLimits shape.now.fields shape.now.count shape.now.rank shape.now.size }
    requires column { AreColumnCodes shape.now.fields column.now }
    requires by { AreColumnCodes shape.now.fields by.now }
    requires groups { AreGroups groups.now }
    ensures { mark ≡ true → IsScaledNumber shape.now.fields (slice_index groups.now) shape.now.count shape.now.rank
        (λ f i. times (slice_index shape.now.fields f) (code by.now f i) (code column.now f i)) result }
{
    if !mark {
        return 0;
    }
    let multiplied = scaled_column(shape, column, by);
    let factors = group_factors(shape, &multiplied, groups);
    let scaled = scaled_column(shape, &multiplied, &row_factors(&factors, groups));
    number(&scaled, shape.count, shape.rank)
}

/// The least of the numbers that are marked below `size`; none where none is.
pub fn least_marked(marks: &Marks, numbers: &[u128; 16], size: usize) -> Option<u128>
    requires { size ≤ 16 }
    ensures { IsLeastMarked marks.now numbers.now size result }
{
    let mut least = None;
    for e in 0..size {
        if marks[e] {
            least = Some(lower(least, numbers[e]));
        }
    }
    least
}

/// The lower of these, if there are two.
fn lower(least: Option<u128>, number: u128) -> u128
    ensures most { result ≤ number }
    ensures either { MatchOption least (result ≡ number) (λ low. (result ≤ low) × ((result ≡ low) ⊎ (result ≡ number))) }
{
    match least {
        Some(low) if low <= number => low,
        _ => number,
    }
}
