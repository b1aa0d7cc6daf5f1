//! Square matrices in lists of entries.
ghost use Rattle.std.specs.Prelude.{◌↔◌, IsTrue, ◌≡◌, ◌<◌, ◌≤◌, ◌+◌, ◌*◌, ℕ, length, replicate, slice_index};
ghost use Rattle.matroid_theory.specs.Matrix.{matrix_product, unit};
ghost use Rattle.product_rep.specs.Valid.{block, HasBlock, AreCodes, IsUnitRow, AreUnitRows, AreInverseCodes};

use arrayvec::ArrayVec;
use field_tables::Field;

/// The square matrix of one factor in a list that has, row by row, that of each factor.
#[derive(Drop)]
pub struct Square<'a> {
    codes: &'a [u8],
    rank: usize,
    factor: usize,
    ghost block: { HasBlock rank factor codes.now },
}

impl<'a> Square<'a> {
    /// The matrix of that rank and factor.
    pub fn of(codes: &'a [u8], rank: usize, factor: usize) -> Square<'a>
        requires { HasBlock rank factor codes.now }
        ensures codes { result.codes.now ≡ codes.now }
        ensures rank { result.rank ≡ rank }
        ensures factor { result.factor ≡ factor }
    {
        Square {
            codes,
            rank,
            factor,
        }
    }

    /// The entry at row `i`, column `k`.
    fn entry(&self, i: usize, k: usize) -> u8
        requires row { i < self.now.rank }
        requires column { k < self.now.rank }
        ensures { result ≡ block self.now.rank self.now.factor self.now.codes.now i k }
    {
        self.codes[(self.factor * self.rank + i) * self.rank + k]
    }
}

/// The entry at row `i`, column `j` of the product of two matrices.
fn product_entry(field: Field, left: &Square, right: &Square, i: usize, j: usize) -> u8
    requires ranks { right.now.rank ≡ left.now.rank }
    requires left_codes { AreCodes field left.now.rank (block left.now.rank left.now.factor left.now.codes.now) }
    requires right_codes { AreCodes field left.now.rank (block right.now.rank right.now.factor right.now.codes.now) }
    requires row { i < left.now.rank }
    requires column { j < left.now.rank }
    ensures { result ≡ matrix_product field left.now.rank (block left.now.rank left.now.factor left.now.codes.now)
        (block right.now.rank right.now.factor right.now.codes.now) i j }
{
    field.laws();
    let mut sum = 0;
    for k in 0..left.rank {
        sum = field.add(sum, field.mul(left.entry(i, k), right.entry(k, j)));
    }
    sum
}

/// Whether row `i` of the product of two matrices is that of the identity matrix.
fn has_unit_row(field: Field, left: &Square, right: &Square, i: usize) -> bool
    requires ranks { right.now.rank ≡ left.now.rank }
    requires left_codes { AreCodes field left.now.rank (block left.now.rank left.now.factor left.now.codes.now) }
    requires right_codes { AreCodes field left.now.rank (block right.now.rank right.now.factor right.now.codes.now) }
    requires row { i < left.now.rank }
    ensures { IsTrue result ↔ IsUnitRow field left.now.rank (block left.now.rank left.now.factor left.now.codes.now)
        (block right.now.rank right.now.factor right.now.codes.now) i }
{
    for j in 0..left.rank {
        if product_entry(field, left, right, i, j) != unit_entry(i, j) {
            return false;
        }
    }
    true
}

/// The entry of the identity matrix.
fn unit_entry(i: usize, j: usize) -> u8
    ensures { result ≡ unit i j }
{
    if i == j { 1 } else { 0 }
}

/// Whether the product of two matrices is the identity matrix.
fn has_unit_rows(field: Field, left: &Square, right: &Square) -> bool
    requires ranks { right.now.rank ≡ left.now.rank }
    requires left_codes { AreCodes field left.now.rank (block left.now.rank left.now.factor left.now.codes.now) }
    requires right_codes { AreCodes field left.now.rank (block right.now.rank right.now.factor right.now.codes.now) }
    ensures { IsTrue result ↔ AreUnitRows field left.now.rank (block left.now.rank left.now.factor left.now.codes.now)
        (block right.now.rank right.now.factor right.now.codes.now) }
{
    for i in 0..left.rank {
        if !has_unit_row(field, left, right, i) {
            return false;
        }
    }
    true
}

/// Whether two matrices of codes are inverse to each other.
pub fn are_inverse(field: Field, rows: &Square, back: &Square) -> bool
    requires ranks { back.now.rank ≡ rows.now.rank }
    requires codes { AreCodes field rows.now.rank (block rows.now.rank rows.now.factor rows.now.codes.now) }
    requires back_codes { AreCodes field rows.now.rank (block back.now.rank back.now.factor back.now.codes.now) }
    ensures { IsTrue result ↔ AreInverseCodes field rows.now.rank (block rows.now.rank rows.now.factor rows.now.codes.now)
        (block back.now.rank back.now.factor back.now.codes.now) }
{
    has_unit_rows(field, rows, back) && has_unit_rows(field, back, rows)
}

/// The identity matrix of that rank, row by row, `count` times.
pub fn unit_rows(count: usize, rank: usize) -> ArrayVec<u8, 108>
    requires count { count ≤ 3 }
    requires rank { rank ≤ 6 }
    requires positive { 0 < rank }
    ensures length { length result.items ≡ count * rank * rank }
    ensures codes { (f i k : ℕ) → f < count → i < rank → k < rank → slice_index result.items ((f * rank + i) * rank + k) ≡ unit i k }
{
    let mut rows = ArrayVec::new();
    for place in 0..count * rank * rank {
        rows.push(u8::from(place / rank % rank == place % rank));
    }
    rows
}

/// The code 1 that many times.
pub fn ones(length: usize) -> ArrayVec<u8, 48>
    requires { length ≤ 48 }
    ensures { result.items ≡ replicate length 1 }
{
    let mut list = ArrayVec::new();
    for _ in 0..length {
        list.push(1);
    }
    list
}

/// The code 0 that many times.
pub fn zeros(length: usize) -> ArrayVec<u8, 3>
    requires { length ≤ 3 }
    ensures { result.items ≡ replicate length 0 }
{
    let mut list = ArrayVec::new();
    for _ in 0..length {
        list.push(0);
    }
    list
}

/// The numbers below this one.
pub fn numbers(size: usize) -> ArrayVec<u8, 16>
    requires { size ≤ 16 }
    ensures length { length result.items ≡ size }
    ensures entries { (j : ℕ) → j < size → slice_index result.items j ≡ j }
{
    let mut list = ArrayVec::new();
    for j in 0..size {
        list.push(j as u8);
    }
    list
}
