//! Whether the next entry may be scaled.
ghost use Rattle.std.specs.Prelude.{◌≡◌, ◌+◌, ◌*◌, ◌%◌, ◌-◌, ◌<◌, ◌≤◌, ◌↔◌, ℕ, length, slice_index, IsTrue};
ghost use Rattle.represent.specs.Filled.{row_at, column_at};
ghost use Rattle.represent.specs.Completions.{IsFree};

use crate::target::Codes;

/// Whether the entries above the next one in its column are 0, or those before it in its row after the unit columns.
pub(crate) fn is_free(rank: u8, codes: &Codes) -> bool
    requires { 0 < rank }
    ensures { IsTrue result ↔ IsFree rank codes.now.items }
{
    let rank = usize::from(rank);
    is_zero_above(rank, codes) || is_zero_before(rank, codes)
}

/// Whether the entries above the next one in its column are 0.
fn is_zero_above(rank: usize, codes: &Codes) -> bool
    requires { 0 < rank }
    ensures { IsTrue result ↔ ((l : ℕ) → l < row_at rank (length codes.now.items) →
        slice_index codes.now.items ((column_at rank (length codes.now.items) - rank) * rank + l) ≡ 0) }
{
    let start = codes.len() / rank * rank;
    codes.as_slice()[start..].iter().all(|code| *code == 0)
}

/// Whether the entries before the next one in its row are 0, after the unit columns.
fn is_zero_before(rank: usize, codes: &Codes) -> bool
    requires { 0 < rank }
    ensures { IsTrue result ↔ ((k : ℕ) → rank ≤ k → k < column_at rank (length codes.now.items) →
        slice_index codes.now.items ((k - rank) * rank + row_at rank (length codes.now.items)) ≡ 0) }
{
    let row = codes.len() % rank;
    for column in 0..codes.len() / rank {
        if codes[column * rank + row] != 0 {
            return false;
        }
    }
    true
}
