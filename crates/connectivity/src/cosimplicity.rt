ghost use Rattle.std.specs.Prelude.{◌<◌, ◌≤◌, ◌↔◌, ◌==◌, ◌||◌, not, ℕ, IsTrue};
ghost use Rattle.matroid_theory.specs.Rep.{size, KeepsLimits};
ghost use Rattle.matroid_theory.specs.Matroid.{Agrees};
ghost use Rattle.matroid_theory.specs.Connection.{IsRank, IsCosimple};

use crate::side::Side;
use product_rep::Rep;

/// Whether leaving out any one element, or any two, keeps the rank.
pub fn cosimple(rep: &Rep) -> bool
    requires { Agrees rep.now }
    ensures { IsTrue result ↔ IsCosimple rep.now }
{
    for j in 0..rep.size() {
        if !keeps_rank_with_earlier(rep, j) {
            return false;
        }
    }
    true
}

/// Whether leaving out column `j`, alone or with one before it, keeps the rank.
fn keeps_rank_with_earlier(rep: &Rep, j: usize) -> bool
    requires { j < size rep.now }
    ensures { IsTrue result ↔ ((i : ℕ) → i ≤ j → IsRank rep.now (λ k. not ((k == i) || (k == j))) rep.now.rank) }
{
    for i in 0..=j {
        if !keeps_rank(rep, i, j) {
            return false;
        }
    }
    true
}

/// Whether leaving out columns `i` and `j` keeps the rank.
fn keeps_rank(rep: &Rep, i: usize, j: usize) -> bool
    ensures { IsTrue result ↔ IsRank rep.now (λ k. not ((k == i) || (k == j))) rep.now.rank }
{
    let mut rest = Side::empty();
    for k in 0..rep.size() {
        if k != i && k != j {
            rest = rest.with(rep, k);
            if rest.rank() == rep.rank() {
                return true;
            }
        }
    }
    false
}
