// A move whose powers and matrices can be read.
ghost use Rattle.std.specs.Prelude.{◌≡◌, ◌<◌, ◌↔◌, ◌+◌, ◌*◌, ℕ, length, slice_index, slice_set, IsTrue};
ghost use Rattle.matroid_theory.specs.declared.Mode.{Mode};
ghost use Rattle.matroid_theory.specs.declared.Mode.TheVariants.{Semilinear as semilinear};
ghost use Rattle.matroid_theory.specs.Field.{degree};
ghost use Rattle.matroid_theory.specs.Rep.{shape, IsProductColumn};
ghost use Rattle.matroid_theory.specs.Move.{AreEquivalent, IsMove, TakesTo, move_of, row_place, scalar_place};
ghost use Rattle.matroid_theory.specs.Level.{followed_by};
ghost use Rattle.product_rep.specs.Tables.{IsIdentityTable};
ghost use Rattle.symmetry.specs.Images.{code_at, mapped, HasLeadOnes, IsImageBy};
ghost use Rattle.symmetry.specs.Symmetric.{IsSymmetry};

use crate::images::{lead_scalars, mapped_code, multiplied};
use arrayvec::ArrayVec;
use matroid_theory::Mode;
use product_rep::{Factors, Move, ProductColumn, Rep, act, compare, unit_rows, zeros};
use std::cmp::Ordering;
use std::marker::Model;

/// A move, with its powers and matrices at hand. Contracts see the table of its entries.
#[derive(Drop)]
pub struct OpenMove {
    step: Move,
    factors: Factors,
    rank: u8,
    powers: ArrayVec<u8, 3>,
    rows: ArrayVec<u8, 108>,
}

impl Model for OpenMove {
    ghost use Rattle.matroid_theory.specs.Move.{MoveTable};
    ghost use Rattle.symmetry.specs.Copies.{HasCopies};

    ghost Value = { MoveTable };

    ghost view = { λ s. s.step };

    ghost invariant = { λ s. HasCopies s.step s.factors s.rank s.powers.items s.rows.items };
}

impl OpenMove {
    /// The move that changes nothing.
    pub fn identity(rep: &Rep) -> OpenMove
        ensures shape { result.shape ≡ shape rep.now }
        ensures entries { IsIdentityTable (shape rep.now) result }
    {
        rep.laws();
        let factors = rep.factors();
        let rank = rep.rank();
        let count = factors.count();
        OpenMove {
            step: Move::identity(rep),
            powers: zeros(count),
            rows: unit_rows(count, rank),
            factors,
            rank: rank as u8,
        }
    }

    /// Makes the factor's power of the Frobenius map this one.
    pub fn set_power(&mut self, factor: usize, power: u8)
        requires factor { factor < length self.old.shape.factors }
        requires power { power < degree (slice_index self.old.shape.factors factor) }
        ensures { self.new ≡ record self.old { powers = slice_set self.old.powers factor power } }
    {
        self.step.laws();
        self.step.set_power(factor, power);
        self.powers[factor] = power;
    }

    /// Makes an entry of the factor's matrix the code, and that of its inverse the other code.
    pub fn set_rows(&mut self, factor: usize, row: usize, column: usize, code: u8, inverse_code: u8)
        requires factor { factor < length self.old.shape.factors }
        requires row { row < self.old.shape.rank }
        requires column { column < self.old.shape.rank }
        requires code { code < slice_index self.old.shape.factors factor }
        requires inverse_code { inverse_code < slice_index self.old.shape.factors factor }
        ensures { self.new ≡ record self.old {
          rows = slice_set self.old.rows (row_place self.old.shape factor row column) code;
          back = slice_set self.old.back (row_place self.old.shape factor row column) inverse_code;
        } }
    {
        self.step.laws();
        self.step.set_rows(factor, row, column, code, inverse_code);
        let rank = usize::from(self.rank);
        self.rows[(factor * rank + row) * rank + column] = code;
    }

    /// Makes the scalar of column `j` in the factor the code.
    pub fn set_scalar(&mut self, factor: usize, j: usize, code: u8)
        requires factor { factor < length self.old.shape.factors }
        requires column { j < self.old.shape.size }
        requires code { code < slice_index self.old.shape.factors factor }
        ensures { self.new ≡ record self.old {
          scalars = slice_set self.old.scalars (scalar_place self.old.shape factor j) code;
        } }
    {
        self.step.set_scalar(factor, j, code);
    }

    /// Makes column `j` come from column `from`.
    pub fn set_label(&mut self, j: usize, from: usize)
        requires column { j < self.old.shape.size }
        requires from { from < self.old.shape.size }
        ensures { self.new ≡ record self.old { labels = slice_set self.old.labels j from } }
    {
        self.step.set_label(j, from);
    }

    /// Whether this is a move of the mode that takes the representation to itself.
    pub fn is_symmetry(&self, rep: &Rep, mode: Mode) -> bool
        ensures { IsTrue result ↔ IsSymmetry mode rep.now self.now }
    {
        self.step.valid(rep, mode) && stays(rep, &self.step)
    }

    /// The column raised, multiplied by the matrix, and scaled so that in each factor the first code that isn't 0 is 1.
    ///
    /// Where the move takes the representation to itself, the representation followed by the column and the representation followed
    /// by its image are equivalent.
    pub fn image(&self, rep: &Rep, column: &ProductColumn) -> ProductColumn
        requires shape { self.now.shape ≡ shape rep.now }
        requires column { IsProductColumn rep.now.factors rep.now.rank column.now.items }
        ensures equivalent { (mode : Mode) → IsSymmetry mode rep.now self.now →
            AreEquivalent mode (followed_by rep.now column.now.items) (followed_by rep.now result.items) }
        ensures by { IsImageBy self.now column.now.items result.items }
        ensures column { IsProductColumn rep.now.factors rep.now.rank result.items }
        ensures scaled { HasLeadOnes rep.now.factors rep.now.rank result.items }
    {
        rep.laws();
        let factors = rep.factors();
        let rank = rep.rank();
        let image = self.mapped(column);
        let scalars = lead_scalars(&factors, rank, &image);
        multiplied(&factors, rank, &image, scalars.as_slice())
    }

    /// The column raised and multiplied by the matrix, factor by factor.
    fn mapped(&self, column: &ProductColumn) -> ProductColumn
        requires { IsProductColumn self.now.shape.factors self.now.shape.rank column.now.items }
        ensures column { IsProductColumn self.now.shape.factors self.now.shape.rank result.items }
        ensures codes { (f i : ℕ) → f < length self.now.shape.factors → i < self.now.shape.rank →
            code_at self.now.shape.factors result.items f i ≡ mapped self.now column.now.items f i }
    {
        self.step.laws();
        let count = self.factors.count();
        let mut image = ArrayVec::new();
        for place in 0..usize::from(self.rank) * count {
            image.push(self.code(column, place % count, place / count));
        }
        image
    }

    /// The code at row `i` and of the factor of the column raised and multiplied by the matrix.
    fn code(&self, column: &ProductColumn, factor: usize, i: usize) -> u8
        requires column { IsProductColumn self.now.shape.factors self.now.shape.rank column.now.items }
        requires factor { factor < length self.now.shape.factors }
        requires row { i < self.now.shape.rank }
        ensures code { result < slice_index self.now.shape.factors factor }
        ensures mapped { result ≡ mapped self.now column.now.items factor i }
    {
        self.step.laws();
        mapped_code(
            self.factors.field(factor),
            self.powers[factor],
            self.row(factor, i),
            column,
            self.factors.count(),
            factor,
        )
    }

    /// Row `i` of the factor's matrix.
    fn row(&self, factor: usize, i: usize) -> &[u8]
        requires factor { factor < length self.now.shape.factors }
        requires row { i < self.now.shape.rank }
        ensures length { length result.now ≡ self.now.shape.rank }
        ensures entries { (k : ℕ) → k < self.now.shape.rank →
            slice_index result.now k ≡ slice_index self.now.rows (row_place self.now.shape factor i k) }
    {
        self.step.laws();
        let rank = usize::from(self.rank);
        let start = (factor * rank + i) * rank;
        &self.rows.as_slice()[start..start + rank]
    }
}

/// Whether the move takes the representation to itself.
fn stays(rep: &Rep, step: &Move) -> bool
    requires shape { step.now.shape ≡ shape rep.now }
    requires valid { IsMove semilinear (shape rep.now) (move_of step.now) }
    ensures { IsTrue result ↔ TakesTo rep.now (move_of step.now) rep.now }
{
    rep.laws();
    match compare(&act(rep, step), rep) {
        Ordering::Equal => true,
        Ordering::Less | Ordering::Greater => false,
    }
}
