// The normalised columns in their order.
ghost use Rattle.std.specs.Prelude.{◌≡◌, ◌≢◌, ◌<◌, ◌≤◌, ◌+◌, ◌*◌, ◌/◌, ◌↔◌, ℕ, IsTrue, MatchOption, length, slice_index};
ghost use Rattle.matroid_theory.specs.Field.{IsFactors};
ghost use Rattle.matroid_theory.specs.Level.{IsNormalised};
ghost use Rattle.extension.specs.Steps.{IsStart, CanRise, IsLastRise, IsLead, IsRaised, IsNextNormalised, IsLastNormalised};

use product_rep::{Factors, ProductColumn};

/// The first normalised column after this one, which is normalised, or empty for the first of all, of those that differ from
/// it in the first rows.
pub fn following(
    factors: &Factors,
    rank: usize,
    rows: usize,
    column: &[u8],
) -> Option<ProductColumn>
    requires low { 0 < rank }
    requires high { rank ≤ 6 }
    requires rows { rows ≤ rank }
    requires start { IsStart factors.now rank column.now }
    ensures { MatchOption result (IsLastNormalised factors.now rank rows column.now)
        (λ v. IsNextNormalised factors.now rank rows column.now v.items) }
{
    let count = factors.count();
    let lead = lead(column, count, rank);
    let place = last_rise(factors, rows, column, lead)?;
    Some(raised(column, count, rank * count, place))
}

/// The first row that isn't zero, or the rank where there is none: a row is zero where its first code is.
pub fn lead(column: &[u8], count: usize, rank: usize) -> usize
    requires count { count ≤ 3 }
    requires rank { rank ≤ 6 }
    ensures { IsLead count rank column.now result }
{
    for row in 0..rank {
        if code_at(column, row * count) != 0 {
            return row;
        }
    }
    rank
}

/// The last place of the first rows where the code can rise.
fn last_rise(factors: &Factors, rows: usize, column: &[u8], lead: usize) -> Option<usize>
    requires { rows ≤ 6 }
    ensures { MatchOption result
        ((p : ℕ) → p < rows * length factors.now → ¬ (CanRise factors.now lead column.now p))
        (λ place. IsLastRise factors.now (rows * length factors.now) lead column.now place) }
{
    let width = rows * factors.count();
    for place in (0..width).rev() {
        if can_rise(factors, column, lead, place) {
            return Some(place);
        }
    }
    None
}

/// Whether the code at the place can be made greater by one: its row isn't the lead, and it is 0 and the first of its row,
/// or not the greatest of its factor.
fn can_rise(factors: &Factors, column: &[u8], lead: usize, place: usize) -> bool
    ensures { IsTrue result ↔ CanRise factors.now lead column.now place }
{
    let count = factors.count();
    let code = code_at(column, place);
    if place / count == lead {
        return false;
    }
    if code == 0 {
        return place % count == 0;
    }
    u16::from(code) + 1 < u16::from(factors.field(place % count).order())
}

/// The column with the code at the place greater by one, and with the least codes after it: 1 in its row, 0 in later rows.
fn raised(column: &[u8], count: usize, width: usize, place: usize) -> ProductColumn
    requires count { 0 < count }
    requires width { width ≤ 18 }
    requires place { place < width }
    requires code { slice_index column.now place < 255 }
    ensures { IsRaised count width place column.now result.items }
{
    let mut raised = ProductColumn::new();
    for p in 0..width {
        raised.push(raised_code(column, count, place, p));
    }
    raised
}

/// The code at a place of the column that is raised at another place.
fn raised_code(column: &[u8], count: usize, place: usize, p: usize) -> u8
    requires count { 0 < count }
    requires code { slice_index column.now place < 255 }
    ensures before { p < place → result ≡ slice_index column.now p }
    ensures at { p ≡ place → result ≡ slice_index column.now place + 1 }
    ensures in_row { place < p → p / count ≡ place / count → result ≡ 1 }
    ensures later_rows { place < p → p / count ≢ place / count → result ≡ 0 }
{
    if p < place {
        return code_at(column, p);
    }
    if p == place {
        return code_at(column, place) + 1;
    }
    u8::from(p / count == place / count)
}

/// The code at the place, and 0 past the end.
fn code_at(column: &[u8], place: usize) -> u8
    ensures { result ≡ slice_index column.now place }
{
    if place < column.len() {
        column[place]
    } else {
        0
    }
}
