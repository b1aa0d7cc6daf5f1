ghost use Rattle.std.specs.Prelude.{◌≡◌, ◌<◌, ◌≤◌, ◌↔◌, ℕ, Bool, IsTrue};
ghost use Rattle.matroid_theory.specs.Rep.{size};
ghost use Rattle.matroid_theory.specs.Matroid.{members, Agrees};
ghost use Rattle.matroid_theory.specs.Connection.{IsConnected, Is3Connected};
ghost use Rattle.connectivity.specs.Sides.{IsSide, AreParts, IsSeparationUpTo};

use crate::side::Side;
use product_rep::Rep;

/// Whether the matroid has no 1-separation (Oxley, chapter 4; by ranks: chapter 8).
pub fn connected(rep: &Rep) -> bool
    requires { Agrees rep.now }
    ensures { IsTrue result ↔ IsConnected rep.now }
{
    !has_separation(rep, 1)
}

/// Whether it has no 1-separation and no 2-separation.
pub fn three_connected(rep: &Rep) -> bool
    requires { Agrees rep.now }
    ensures { IsTrue result ↔ Is3Connected rep.now }
{
    !has_separation(rep, 2)
}

/// Whether there is a separation of some order from 1 up to the greatest.
fn has_separation(rep: &Rep, greatest: usize) -> bool
    requires agrees { Agrees rep.now }
    requires greatest { greatest ≤ 2 }
    ensures { IsTrue result ↔ ((X : ℕ → Bool) × IsSeparationUpTo rep.now greatest X) }
{
    rep.laws();
    // A set is a separation where its complement is one, so the first column may be put on the first side.
    let first = Side::empty().with(rep, 0);
    has_separation_from(rep, greatest, 1, first, Side::empty())
}

/// Whether there is a separation of some order from 1 up to the greatest with the columns before `next` on the sides that they
/// are on.
///
/// The ranks of the sides only grow with more columns, so there is none where they are too large already.
fn has_separation_from(rep: &Rep, greatest: usize, next: usize, first: Side, second: Side) -> bool
    requires greatest { greatest ≤ 2 }
    requires next { next ≤ size rep.now }
    requires first { IsSide rep.now first.set first.basis }
    requires second { IsSide rep.now second.set second.basis }
    requires parts { AreParts next (members first.set) (members second.set) }
    ensures { IsTrue result ↔ ((X : ℕ → Bool) × IsSeparationUpTo rep.now greatest X × ((j : ℕ) → j < next → X j ≡ members first.set j)) }
{
    let size = rep.size();
    if first.rank() + second.rank() >= rep.rank() + greatest {
        return false;
    }
    if next == size {
        return are_separated(rep, greatest, first, second);
    }
    let longer = first.with(rep, next);
    if has_separation_from(rep, greatest, next + 1, longer, second) {
        return true;
    }
    let longer = second.with(rep, next);
    has_separation_from(rep, greatest, next + 1, first, longer)
}

/// Whether the sides, on which all columns are, are a separation of some order from 1 up to the greatest: whether they are one
/// of the greatest order for which they have elements enough.
fn are_separated(rep: &Rep, greatest: usize, first: Side, second: Side) -> bool
    requires greatest { greatest ≤ 2 }
    requires first { IsSide rep.now first.set first.basis }
    requires second { IsSide rep.now second.set second.basis }
    requires parts { AreParts (size rep.now) (members first.set) (members second.set) }
    ensures { IsTrue result ↔ IsSeparationUpTo rep.now greatest (members first.set) }
{
    rep.laws();
    let order = greatest.min(first.size()).min(second.size());
    order > 0 && first.rank() + second.rank() < rep.rank() + order
}
