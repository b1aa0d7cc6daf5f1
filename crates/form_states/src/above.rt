// Giving up an element before its pivot: no column that it brings into the flat can be as low as what was found.
ghost use Rattle.std.specs.Prelude.{◌≡◌, ◌≢◌, ◌<◌, ◌≤◌, ◌+◌, ◌-◌, ◌*◌, ◌/◌, ◌%◌, ◌^◌, [], ℕ, length, slice_index, slice_index_or, true, false};
ghost use Rattle.std.specs.Option.{MatchOption};
ghost use Rattle.form_trails.specs.Numbers.{weighed};
ghost use Rattle.form_states.specs.Codes.{code};
ghost use Rattle.form_states.specs.States.{AreLimits};
ghost use Rattle.form_states.specs.Steps.{AreAbove};

use crate::columns::Column;
use crate::lists::{Columns, Marks};
use crate::numbers::Numbers;
use crate::states::Shape;
use crate::weights::number;

/// What was found has next, where the search is level with it and this is the number of a column that is zero in the rows before
/// row `k`.
pub fn next_within(
    shape: &Shape,
    k: usize,
    best: &Option<Numbers>,
    settled: &Numbers,
    level: bool,
) -> Option<u128>
    requires limits { AreLimits shape.now.fields shape.now.count shape.now.rank shape.now.size }
    requires row { k < shape.now.rank }
    ensures { MatchOption result (true ≡ true) (λ low. (level ≡ true) × MatchOption best.now ⊥ (λ least.
        (length settled.now < length least) × (slice_index least (length settled.now) ≡ low) × (low < 16 ^ ((shape.now.rank - k) * shape.now.count)))) }
{
    match best {
        Some(least) if level && settled.len() < least.len() => {
            within(least.get(settled.len()), (shape.rank - k) * shape.count)
        }
        _ => None,
    }
}

/// Whether what was found has a next number, of a column that is zero in the rows before row `k`, where none is open.
pub fn gives_up(
    shape: &Shape,
    k: usize,
    best: &Option<Numbers>,
    settled: &Numbers,
    level: bool,
) -> bool
    requires limits { AreLimits shape.now.fields shape.now.count shape.now.rank shape.now.size }
    requires row { k < shape.now.rank }
    ensures was_level { result ≡ true → level ≡ true }
    ensures within { result ≡ true → MatchOption best.now ⊥ (λ least.
        (length settled.now < length least) × (slice_index least (length settled.now) < 16 ^ ((shape.now.rank - k) * shape.now.count))) }
{
    next_within(shape, k, best, settled, level).is_some()
}

/// The number, if it has no more digits in base 16 than these.
fn within(number: u128, digits: usize) -> Option<u128>
    requires { digits ≤ 18 }
    ensures { MatchOption result (true ≡ true) (λ low. (low ≡ number) × (number < 16 ^ digits)) }
{
    if number >> (4 * digits) == 0 {
        Some(number)
    } else {
        None
    }
}

/// Whether no column that an element of the class of `b` can have next is as low as this number, if there is one.
pub fn leaves(
    shape: &Shape,
    k: usize,
    columns: &Columns,
    class: &Marks,
    b: usize,
    low: Option<u128>,
) -> bool
    requires limits { AreLimits shape.now.fields shape.now.count shape.now.rank shape.now.size }
    requires row { k < shape.now.rank }
    requires element { b < 16 }
    ensures { result ≡ true → MatchOption low ⊥ (λ low. (e : ℕ) → e < shape.now.size → slice_index_or class.now e false ≡ true →
        AreAbove shape.now.count shape.now.rank k (slice_index_or columns.now e []) (slice_index_or columns.now b []) low) }
{
    match low {
        Some(low) => are_above(shape, k, columns, class, b, low),
        None => false,
    }
}

/// Whether each column that an element of the class of `b` can have next has a greater number than `low`: it isn't 0 in row `k`,
/// nor where the two columns differ after it.
pub fn are_above(
    shape: &Shape,
    k: usize,
    columns: &Columns,
    class: &Marks,
    b: usize,
    low: u128,
) -> bool
    requires limits { AreLimits shape.now.fields shape.now.count shape.now.rank shape.now.size }
    requires row { k < shape.now.rank }
    requires element { b < 16 }
    ensures { result ≡ true → (e : ℕ) → e < shape.now.size → slice_index_or class.now e false ≡ true →
        AreAbove shape.now.count shape.now.rank k (slice_index_or columns.now e []) (slice_index_or columns.now b []) low }
{
    for e in 0..shape.size {
        if class[e] && !is_above(shape, k, &columns[e], &columns[b], low) {
            return false;
        }
    }
    true
}

/// The same of one column.
fn is_above(shape: &Shape, k: usize, column: &Column, base: &Column, low: u128) -> bool
    requires limits { AreLimits shape.now.fields shape.now.count shape.now.rank shape.now.size }
    requires row { k < shape.now.rank }
    ensures { result ≡ true → AreAbove shape.now.count shape.now.rank k column.now base.now low }
{
    low < least_with(shape, k, first_difference(shape, k, column, base))
}

/// The first row after row `k` where the columns differ in the first factor; `k` where there is none.
fn first_difference(shape: &Shape, k: usize, column: &Column, base: &Column) -> usize
    requires limits { AreLimits shape.now.fields shape.now.count shape.now.rank shape.now.size }
    requires row { k < shape.now.rank }
    ensures within { result < shape.now.rank }
    ensures differ { result ≢ k → (k < result) × (code column.now 0 result ≢ code base.now 0 result) }
{
    for i in k + 1..shape.rank {
        if column[i][0] != base[i][0] {
            return i;
        }
    }
    k
}

/// The number of the column that is 1 in these rows and 0 in the others: the least of those that aren't 0 there.
fn least_with(shape: &Shape, k: usize, j: usize) -> u128
    requires limits { AreLimits shape.now.fields shape.now.count shape.now.rank shape.now.size }
    requires k { k < shape.now.rank }
    requires j { j < shape.now.rank }
    ensures { (c : ℕ → ℕ → ℕ) → ((f : ℕ) → f < shape.now.count → c f k ≢ 0) → ((f : ℕ) → f < shape.now.count → c f j ≢ 0) →
        result ≤ weighed (λ e. c (e % shape.now.count) (e / shape.now.count)) (shape.now.rank * shape.now.count) }
{
    let mut column = [[0; 3]; 6];
    column[k] = [1; 3];
    column[j] = [1; 3];
    number(&column, shape.count, shape.rank)
}
