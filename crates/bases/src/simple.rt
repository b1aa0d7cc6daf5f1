//! Simple representations.
ghost use Rattle.std.specs.Prelude.{◌≡◌, ◌<◌, ◌≤◌, ◌↔◌, ◌==◌, ◌||◌, ℕ, IsTrue};
ghost use Rattle.matroid_theory.specs.Rep.{size, count};
ghost use Rattle.matroid_theory.specs.Matroid.{IsIndependentIn, IsSimple};
ghost use Rattle.bases.specs.FactorColumns.{IsFactorOf};

use crate::factor::FactorColumns;
use product_rep::Rep;

/// Whether in every factor no column is zero and no two columns are parallel.
pub fn is_simple(rep: &Rep) -> bool
    ensures { IsTrue result ↔ IsSimple rep.now }
{
    for factor in 0..rep.factors().count() {
        if !is_simple_in(rep, factor) {
            return false;
        }
    }
    true
}

/// Whether in one factor no column is zero and no two columns are parallel.
fn is_simple_in(rep: &Rep, factor: usize) -> bool
    requires { factor < count rep.now }
    ensures { IsTrue result ↔ ((i j : ℕ) → i < size rep.now → j < size rep.now → IsIndependentIn rep.now factor (λ k. (k == i) || (k == j))) }
{
    let part = FactorColumns::of(rep, factor);
    for j in 0..rep.size() {
        if !is_apart_from_earlier(rep, factor, &part, j) {
            return false;
        }
    }
    true
}

/// Whether in one factor, of these columns, column `j` is nonzero and parallel to none before it.
fn is_apart_from_earlier(rep: &Rep, factor: usize, part: &FactorColumns, j: usize) -> bool
    requires part { IsFactorOf rep.now factor part.now.field part.now.columns.items }
    requires column { j < size rep.now }
    ensures { IsTrue result ↔ ((i : ℕ) → i ≤ j → IsIndependentIn rep.now factor (λ k. (k == i) || (k == j))) }
{
    rep.laws();
    for i in 0..=j {
        if !part.is_independent(1 << i | 1 << j) {
            return false;
        }
    }
    true
}
