//! Moves, and what they make of representations.
ghost use Rattle.std.specs.Prelude.{◌≡◌, ◌<◌, ◌+◌, ◌*◌, ℕ, length, map, slice_index, slice_set};
ghost use Rattle.matroid_theory.specs.declared.Mode.{Mode};
ghost use Rattle.matroid_theory.specs.declared.Mode.TheVariants.{Semilinear as semilinear};
ghost use Rattle.matroid_theory.specs.Field.{degree, raised as raised_by};
ghost use Rattle.matroid_theory.specs.Rep.{count, size, order, matrix, shape, KeepsLimits};
ghost use Rattle.matroid_theory.specs.Move.{IsMove, TakesTo, moved, move_of, row_place, scalar_place};
ghost use Rattle.matroid_theory.specs.Powers.{IsRaised};
ghost use Rattle.product_rep.specs.Tables.{KeepsMove, IsIdentityTable};

mod validity;

use crate::matrices::{numbers, ones, unit_rows, zeros};
use crate::{Factors, ProductColumn, Rep};
use arrayvec::ArrayVec;
use field_tables::{Column, Field};
use std::marker::Model;

/// A move of representations of one shape: for each factor a power of the Frobenius map, a square matrix with its inverse and a
/// scalar for each column, and one relabelling of the columns. Contracts see the table of its entries.
#[derive(Drop)]
pub struct Move {
    factors: Factors,
    rank: u8,
    size: u8,
    powers: ArrayVec<u8, 3>,
    rows: ArrayVec<u8, 108>,
    back: ArrayVec<u8, 108>,
    scalars: ArrayVec<u8, 48>,
    labels: ArrayVec<u8, 16>,
}

impl Model for Move {
    ghost use Rattle.matroid_theory.specs.Move.{MoveTable};
    ghost use Rattle.product_rep.specs.Tables.{table, KeepsMove};

    ghost Value = { MoveTable };

    ghost view = { table };

    ghost invariant = { λ move. KeepsMove (table move) };
}

impl Move {
    /// The move that changes nothing. It is one of each mode.
    pub fn identity(rep: &Rep) -> Move
        ensures shape { result.shape ≡ shape rep.now }
        ensures valid { (mode : Mode) → IsMove mode (shape rep.now) (move_of result) }
        ensures entries { IsIdentityTable (shape rep.now) result }
        ensures takes { TakesTo rep.now (move_of result) rep.now }
    {
        rep.laws();
        let size = rep.size();
        let rank = rep.rank();
        let factors = rep.factors();
        factors.laws();
        let count = factors.count();
        Move {
            rank: rank as u8,
            size: size as u8,
            powers: zeros(count),
            rows: unit_rows(count, rank),
            back: unit_rows(count, rank),
            scalars: ones(count * size),
            labels: numbers(size),
            factors,
        }
    }

    /// What the type keeps, for the proofs of callers: lists as long as the shape says, powers below the degrees, codes of the
    /// fields, and labels that are columns.
    pub fn laws(&self)
        ensures { KeepsMove self.now }
    {
        let _labels = &self.labels;
    }

    /// Makes the factor's power of the Frobenius map this one: codes are raised so many times to the power of the characteristic.
    pub fn set_power(&mut self, factor: usize, power: u8)
        requires factor { factor < length self.old.shape.factors }
        requires power { power < degree (slice_index self.old.shape.factors factor) }
        ensures { self.new ≡ record self.old { powers = slice_set self.old.powers factor power } }
    {
        self.powers[factor] = power;
    }

    /// Makes an entry of the factor's matrix the code, and that of its inverse the other code.
    pub fn set_rows(&mut self, factor: usize, row: usize, column: usize, code: u8, inverse_code: u8)
        requires factor { factor < length self.old.shape.factors }
        requires row { row < self.old.shape.rank }
        requires column { column < self.old.shape.rank }
        requires code { code < slice_index self.old.shape.factors factor }
        requires inverse_code { inverse_code < slice_index self.old.shape.factors factor }
        ensures { self.new ≡ record self.old {
          rows = slice_set self.old.rows (row_place self.old.shape factor row column) code;
          back = slice_set self.old.back (row_place self.old.shape factor row column) inverse_code;
        } }
    {
        let rank = usize::from(self.rank);
        let place = (factor * rank + row) * rank + column;
        self.rows[place] = code;
        self.back[place] = inverse_code;
    }

    /// Makes the scalar of column `j` in the factor the code.
    pub fn set_scalar(&mut self, factor: usize, j: usize, code: u8)
        requires factor { factor < length self.old.shape.factors }
        requires column { j < self.old.shape.size }
        requires code { code < slice_index self.old.shape.factors factor }
        ensures { self.new ≡ record self.old {
          scalars = slice_set self.old.scalars (scalar_place self.old.shape factor j) code;
        } }
    {
        self.scalars[factor * usize::from(self.size) + j] = code;
    }

    /// Makes column `j` come from column `from`.
    pub fn set_label(&mut self, j: usize, from: usize)
        requires column { j < self.old.shape.size }
        requires from { from < self.old.shape.size }
        ensures { self.new ≡ record self.old { labels = slice_set self.old.labels j from } }
    {
        prove!(from < usize::from(self.size));
        self.labels[j] = from as u8;
    }

    /// The field of the factor.
    fn field(&self, factor: usize) -> Field
        requires { factor < length self.now.shape.factors }
        ensures { result ≡ slice_index self.now.shape.factors factor }
    {
        self.factors.field(factor)
    }

    /// The factor's power of the Frobenius map.
    fn power(&self, factor: usize) -> u8
        requires { factor < length self.now.shape.factors }
        ensures { result ≡ slice_index self.now.powers factor }
    {
        self.powers[factor]
    }

    /// Row `i` of the factor's matrix.
    fn row(&self, factor: usize, i: usize) -> &[u8]
        requires factor { factor < length self.now.shape.factors }
        requires row { i < self.now.shape.rank }
        ensures length { length result.now ≡ self.now.shape.rank }
        ensures entries { (k : ℕ) → k < self.now.shape.rank →
            slice_index result.now k ≡ slice_index self.now.rows (row_place self.now.shape factor i k) }
    {
        let rank = usize::from(self.rank);
        let start = (factor * rank + i) * rank;
        &self.rows.as_slice()[start..start + rank]
    }

    /// The scalar of column `j` in the factor.
    fn scalar(&self, factor: usize, j: usize) -> u8
        requires factor { factor < length self.now.shape.factors }
        requires column { j < self.now.shape.size }
        ensures { result ≡ slice_index self.now.scalars (scalar_place self.now.shape factor j) }
    {
        self.scalars[factor * usize::from(self.size) + j]
    }

    /// The column that column `j` comes from.
    fn label(&self, j: usize) -> usize
        requires { j < self.now.shape.size }
        ensures { result ≡ slice_index self.now.labels j }
    {
        usize::from(self.labels[j])
    }
}

/// What the move makes of the representation: column `j` is, in each factor, the scalar `j` times the matrix times the raised
/// column that `j` comes from.
pub fn act(rep: &Rep, step: &Move) -> Rep
    requires shape { step.now.shape ≡ shape rep.now }
    requires valid { IsMove semilinear (shape rep.now) (move_of step.now) }
    ensures { TakesTo rep.now (move_of step.now) result }
{
    rep.laws();
    let size = rep.size();
    let mut image = Rep::empty(rep.factors(), rep.rank() as u8);
    for j in 0..size {
        image.push_column(&moved_column(rep, step, j));
    }
    image.laws();
    image
}

/// The representation with each code of the factor raised so many times to the power of the characteristic.
pub fn raised(rep: &Rep, factor: usize, power: u8) -> Rep
    requires factor { factor < count rep.now }
    requires power { power < degree (order rep.now factor) }
    ensures { IsRaised rep.now factor power result }
{
    rep.laws();
    let mut step = Move::identity(rep);
    step.laws();
    step.set_power(factor, power);
    act(rep, &step)
}

/// Column `j` of all factors, after the move.
fn moved_column(rep: &Rep, step: &Move, j: usize) -> ProductColumn
    requires is_rep { KeepsLimits rep.now }
    requires shape { step.now.shape ≡ shape rep.now }
    requires valid { IsMove semilinear (shape rep.now) (move_of step.now) }
    requires column { j < size rep.now }
    ensures rows { length result.items ≡ rep.now.rank * count rep.now }
    ensures codes { (i f : ℕ) → i < rep.now.rank → f < count rep.now →
        slice_index result.items (i * count rep.now + f) ≡ moved (shape rep.now) (matrix rep.now) (move_of step.now) f i j }
{
    let count = rep.factors().count();
    let mut column = ArrayVec::new();
    for place in 0..rep.rank() * count {
        column.push(moved_code(rep, step, place % count, place / count, j));
    }
    column
}

/// The code at row `i` of column `j` of the factor, after the move.
fn moved_code(rep: &Rep, step: &Move, factor: usize, i: usize, j: usize) -> u8
    requires is_rep { KeepsLimits rep.now }
    requires shape { step.now.shape ≡ shape rep.now }
    requires valid { IsMove semilinear (shape rep.now) (move_of step.now) }
    requires factor { factor < count rep.now }
    requires row { i < rep.now.rank }
    requires column { j < size rep.now }
    ensures { result ≡ moved (shape rep.now) (matrix rep.now) (move_of step.now) factor i j }
{
    step.laws();
    let field = step.field(factor);
    let from = rep.factor_column(factor, step.label(j));
    let column = raised_column(field, step.power(factor), &from);
    let code = field.sum_of_products(step.row(factor, i), column.as_slice());
    field.mul(step.scalar(factor, j), code)
}

/// The column with each code raised so many times to the power of the characteristic.
fn raised_column(field: Field, power: u8, column: &Column) -> Column
    requires { (k : ℕ) → k < length column.now.items → slice_index column.now.items k < field }
    ensures { result.items ≡ map (raised_by field power) column.now.items }
{
    let mut image = ArrayVec::new();
    for code in column.as_slice() {
        image.push(raised_code(field, power, *code));
    }
    image
}

/// The code raised so many times to the power of the characteristic.
pub fn raised_code(field: Field, power: u8, code: u8) -> u8
    requires { code < field }
    ensures value { result ≡ raised_by field power code }
    ensures code { result < field }
{
    let mut image = code;
    for _ in 0..power {
        image = field.frobenius(image);
    }
    image
}
