// Columns multiplied by a matrix and scaled.
ghost use Rattle.std.specs.Prelude.{◌≡◌, ◌≢◌, ◌<◌, ◌≤◌, ◌+◌, ◌*◌, ℕ, length, slice_index};
ghost use Rattle.matroid_theory.specs.Field.{times, raised as raised_by};
ghost use Rattle.matroid_theory.specs.Matrix.{sum_below};
ghost use Rattle.matroid_theory.specs.Rep.{IsProductColumn};
ghost use Rattle.symmetry.specs.Images.{code_at, AreLeadScalars};

use arrayvec::ArrayVec;
use field_tables::Field;
use product_rep::{Factors, ProductColumn, raised_code};

/// The sum of the products of the codes of the row and the raised codes of the column in the factor.
pub(crate) fn mapped_code(
    field: Field,
    power: u8,
    row: &[u8],
    column: &ProductColumn,
    count: usize,
    factor: usize,
) -> u8
    requires count { count ≤ 3 }
    requires factor { factor < count }
    requires rows { length row.now ≤ 6 }
    requires row_codes { (k : ℕ) → k < length row.now → slice_index row.now k < field }
    requires places { (k : ℕ) → k < length row.now → k * count + factor < length column.now.items }
    requires codes { (k : ℕ) → k < length row.now → slice_index column.now.items (k * count + factor) < field }
    ensures sum { result ≡ sum_below field (length row.now)
        (λ k. times field (slice_index row.now k) (raised_by field power (slice_index column.now.items (k * count + factor)))) }
    ensures code { result < field }
{
    field.laws();
    let mut sum = 0;
    for k in 0..row.len() {
        let code = raised_code(field, power, column[k * count + factor]);
        sum = field.add(sum, field.mul(row[k], code));
    }
    sum
}

/// For each factor the code that makes the first code of the column that isn't 0 a 1; 1 where all are 0.
pub(crate) fn lead_scalars(
    factors: &Factors,
    rank: usize,
    column: &ProductColumn,
) -> ArrayVec<u8, 3>
    requires rank { rank ≤ 6 }
    requires column { IsProductColumn factors.now rank column.now.items }
    ensures { AreLeadScalars factors.now rank column.now.items result.items }
{
    let count = factors.count();
    let mut scalars = ArrayVec::new();
    for factor in 0..count {
        scalars.push(lead_scalar(factors.field(factor), rank, column, count, factor));
    }
    scalars
}

/// The code that makes the first code of the column that isn't 0 in the factor a 1; 1 where all are 0.
fn lead_scalar(field: Field, rank: usize, column: &ProductColumn, count: usize, factor: usize) -> u8
    requires count { count ≤ 3 }
    requires factor { factor < count }
    requires rank { rank ≤ 6 }
    requires places { (k : ℕ) → k < rank → k * count + factor < length column.now.items }
    requires codes { (k : ℕ) → k < rank → slice_index column.now.items (k * count + factor) < field }
    ensures code { result < field }
    ensures nonzero { result ≢ 0 }
    ensures one { (i : ℕ) → i < rank → ((k : ℕ) → k < i → slice_index column.now.items (k * count + factor) ≡ 0) →
        slice_index column.now.items (i * count + factor) ≢ 0 → times field result (slice_index column.now.items (i * count + factor)) ≡ 1 }
{
    field.laws();
    for i in 0..rank {
        let code = column[i * count + factor];
        if code != 0 {
            return field.inv(code);
        }
    }
    1
}

/// The column with the codes of each factor multiplied by one code.
pub(crate) fn multiplied(
    factors: &Factors,
    rank: usize,
    column: &ProductColumn,
    scalars: &[u8],
) -> ProductColumn
    requires rank { rank ≤ 6 }
    requires column { IsProductColumn factors.now rank column.now.items }
    requires count { length scalars.now ≡ length factors.now }
    requires scalars { (f : ℕ) → f < length factors.now → slice_index scalars.now f < slice_index factors.now f }
    ensures column { IsProductColumn factors.now rank result.items }
    ensures codes { (f i : ℕ) → f < length factors.now → i < rank → code_at factors.now result.items f i ≡
        times (slice_index factors.now f) (slice_index scalars.now f) (code_at factors.now column.now.items f i) }
{
    let count = factors.count();
    let mut image = ArrayVec::new();
    for place in 0..rank * count {
        let factor = place % count;
        image.push(factors.field(factor).mul(scalars[factor], column[place]));
    }
    image
}
