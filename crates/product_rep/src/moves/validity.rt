//! Whether a table is a move.
ghost use Rattle.std.specs.Prelude.{◌==◌, ◌↔◌, IsTrue, unwrap_or, ◌≡◌, ◌<◌, ℕ, length, slice_index};
ghost use Rattle.std.specs.List.{position};
ghost use Rattle.matroid_theory.specs.Rep.{shape};
ghost use Rattle.matroid_theory.specs.Move.{AllowsPower, ArePermutation, IsMove, move_of};
ghost use Rattle.product_rep.specs.Valid.{IsScalar, IsLabel, AreInverseCodes, IsFactorPart};

use crate::matrices::{Square, are_inverse};
use crate::moves::Move;
use crate::{Mode, Rep};

impl Move {
    /// Whether this is a move of the mode for the representation: of its shape, each power is 0 if the mode is linear, each matrix
    /// times its inverse and its inverse times it are the identity, no scalar is 0, and the labels are a permutation.
    pub fn valid(&self, rep: &Rep, mode: Mode) -> bool
        ensures { IsTrue result ↔ ((self.now.shape ≡ shape rep.now) × IsMove mode (shape rep.now) (move_of self.now)) }
    {
        self.has_shape(rep) && self.is_move(mode)
    }

    /// Whether the representation has this shape.
    fn has_shape(&self, rep: &Rep) -> bool
        ensures { IsTrue result ↔ (self.now.shape ≡ shape rep.now) }
    {
        self.factors.same(&rep.factors())
            && usize::from(self.rank) == rep.rank()
            && usize::from(self.size) == rep.size()
    }

    /// Whether this is a move of the mode for representations of its own shape.
    fn is_move(&self, mode: Mode) -> bool
        ensures { IsTrue result ↔ IsMove mode self.now.shape (move_of self.now) }
    {
        self.laws();
        if !self.has_powers(mode) {
            return false;
        }
        self.has_factors() && self.has_labels()
    }

    /// Whether the mode allows each power.
    fn has_powers(&self, mode: Mode) -> bool
        ensures { IsTrue result ↔ ((f : ℕ) → f < length self.now.shape.factors → AllowsPower mode (slice_index self.now.powers f)) }
    {
        match mode {
            Mode::Linear => self.has_no_power(),
            Mode::Semilinear => true,
        }
    }

    /// Whether each power is 0.
    fn has_no_power(&self) -> bool
        ensures { IsTrue result ↔ ((f : ℕ) → f < length self.now.shape.factors → slice_index self.now.powers f ≡ 0) }
    {
        for factor in 0..self.factors.count() {
            if self.power(factor) != 0 {
                return false;
            }
        }
        true
    }

    /// Whether each factor has its matrices and scalars.
    fn has_factors(&self) -> bool
        ensures { IsTrue result ↔ ((f : ℕ) → f < length self.now.shape.factors → IsFactorPart self.now f) }
    {
        for factor in 0..self.factors.count() {
            if !self.has_factor(factor) {
                return false;
            }
        }
        true
    }

    /// Whether the factor has a matrix with its inverse, and scalars other than 0.
    fn has_factor(&self, factor: usize) -> bool
        requires { factor < length self.now.shape.factors }
        ensures { IsTrue result ↔ IsFactorPart self.now factor }
    {
        self.has_matrices(factor) && self.has_scalars(factor)
    }

    /// Whether the factor has a matrix with its inverse.
    fn has_matrices(&self, factor: usize) -> bool
        requires { factor < length self.now.shape.factors }
        ensures { IsTrue result ↔
            AreInverseCodes (slice_index self.now.shape.factors factor) self.now.shape.rank ((move_of self.now).rows factor) ((move_of self.now).back factor) }
    {
        self.laws();
        let rank = usize::from(self.rank);
        let rows = Square::of(self.rows.as_slice(), rank, factor);
        let back = Square::of(self.back.as_slice(), rank, factor);
        are_inverse(self.field(factor), &rows, &back)
    }

    /// Whether in the factor no scalar is 0.
    fn has_scalars(&self, factor: usize) -> bool
        requires { factor < length self.now.shape.factors }
        ensures { IsTrue result ↔ ((j : ℕ) → j < self.now.shape.size → IsScalar self.now factor j) }
    {
        for j in 0..usize::from(self.size) {
            if !self.has_scalar(factor, j) {
                return false;
            }
        }
        true
    }

    /// Whether in the factor the scalar of column `j` isn't 0.
    fn has_scalar(&self, factor: usize, j: usize) -> bool
        requires factor { factor < length self.now.shape.factors }
        requires column { j < self.now.shape.size }
        ensures { IsTrue result ↔ IsScalar self.now factor j }
    {
        self.laws();
        self.scalar(factor, j) != 0
    }

    /// Whether the labels of the columns are a permutation.
    fn has_labels(&self) -> bool
        ensures { IsTrue result ↔ ArePermutation self.now.shape.size (move_of self.now).label (move_of self.now).place }
    {
        for j in 0..usize::from(self.size) {
            if !self.has_label(j) {
                return false;
            }
        }
        true
    }

    /// Whether column `j` comes from one column and goes to one.
    fn has_label(&self, j: usize) -> bool
        requires { j < self.now.shape.size }
        ensures { IsTrue result ↔ IsLabel self.now j }
    {
        self.laws();
        self.place(self.label(j)) == j && self.label(self.place(j)) == j
    }

    /// The first column that comes from column `j`, and 0 where there is none.
    fn place(&self, j: usize) -> usize
        requires { j < self.now.shape.size }
        ensures place { result ≡ unwrap_or (position (λ l. l == j) self.now.labels) 0 }
        ensures below { result < self.now.shape.size }
    {
        self.laws();
        for k in 0..usize::from(self.size) {
            if self.label(k) == j {
                return k;
            }
        }
        0
    }
}
