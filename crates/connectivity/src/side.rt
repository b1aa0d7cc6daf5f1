ghost use Rattle.std.specs.Prelude.{◌≡◌, ◌<◌, ◌≤◌, ◌^◌, ◌==◌, ◌||◌, ℕ, false};
ghost use Rattle.matroid_theory.specs.Matrix.{size_below};
ghost use Rattle.matroid_theory.specs.Rep.{Rep as Matrices, size, KeepsLimits};
ghost use Rattle.matroid_theory.specs.Matroid.{members};
ghost use Rattle.matroid_theory.specs.Connection.{IsRank};
ghost use Rattle.connectivity.specs.Sides.{IsSide};

use bases::is_independent;
use field_tables::Mask;
use product_rep::Rep;

/// A set of columns, with a basis of it in the first factor.
#[derive(Clone, Copy)]
pub struct Side {
    set: Mask,
    basis: Mask,
}

impl Side {
    /// The side with no column.
    pub fn empty() -> Side
        ensures set { (k : ℕ) → members result.set k ≡ false }
        ensures side { (M : Matrices) → IsSide M result.set result.basis }
    {
        Side { set: 0, basis: 0 }
    }

    /// This side and column `j`.
    pub fn with(self, rep: &Rep, j: usize) -> Side
        requires column { j < size rep.now }
        requires side { IsSide rep.now self.set self.basis }
        ensures set { (k : ℕ) → members result.set k ≡ ((k == j) || members self.set k) }
        ensures side { IsSide rep.now result.set result.basis }
    {
        rep.laws();
        let longer = self.basis | 1 << j;
        let basis = if is_independent(rep, 0, longer) {
            longer
        } else {
            self.basis
        };
        Side {
            set: self.set | 1 << j,
            basis,
        }
    }

    /// The number of its columns.
    pub fn size(self) -> usize
        ensures { (n : ℕ) → self.set < 2 ^ n → size_below n (members self.set) ≡ result }
    {
        self.set.count_ones() as usize
    }

    /// Its rank.
    pub fn rank(self) -> usize
        ensures rank { (M : Matrices) → KeepsLimits M → IsSide M self.set self.basis → IsRank M (members self.set) result }
        ensures few { result ≤ 16 }
    {
        self.basis.count_ones() as usize
    }
}
