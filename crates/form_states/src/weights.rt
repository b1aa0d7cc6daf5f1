// Numbers of columns.
ghost use Rattle.std.specs.Prelude.{◌≡◌, ◌<◌, ◌≤◌, ◌+◌, ◌*◌, ◌/◌, ◌%◌, ◌^◌, [], ℕ, slice_index, slice_index_or};
ghost use Rattle.form_trails.specs.Numbers.{weighed, weighed_on};
ghost use Rattle.form_states.specs.Codes.{code};

use crate::codes::Codes;
use crate::columns::Column;

/// The number of the column: its codes, row by row and factor by factor within a row, are the digits in base 16.
pub fn number(column: &Column, count: usize, rank: usize) -> u128
    requires low { 1 ≤ count }
    requires high { count ≤ 3 }
    requires rank { rank ≤ 6 }
    requires digits { (f i : ℕ) → f < 3 → i < 6 → code column.now f i < 16 }
    ensures { result ≡ weighed (λ e. code column.now (e % count) (e / count)) (rank * count) }
{
    let mut number = 0;
    for i in 0..rank {
        number = weigh(number, &column[i], count);
    }
    number
}

/// The number with the digits of a row added.
#[inline(always)]
fn weigh(number: u128, codes: &Codes, count: usize) -> u128
    requires low { 1 ≤ count }
    requires high { count ≤ 3 }
    requires room { number < 2 ^ 100 }
    requires digits { (f : ℕ) → f < 3 → slice_index codes.now f < 16 }
    ensures digits { result ≡ weighed_on number (slice_index codes.now) count }
    ensures most { result < 4096 * (number + 1) }
{
    let one = number * 16 + u128::from(codes[0]);
    if count == 1 {
        return one;
    }
    let two = one * 16 + u128::from(codes[1]);
    if count == 2 {
        return two;
    }
    two * 16 + u128::from(codes[2])
}
