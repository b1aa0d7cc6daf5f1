//! Independent sets and bases of a representation.
ghost use Rattle.std.specs.Prelude.{◌≡◌, ◌<◌, ◌^◌, ◌↔◌, ℕ, Bool, IsTrue};
ghost use Rattle.matroid_theory.specs.Matrix.{size_below};
ghost use Rattle.matroid_theory.specs.Rep.{size, count};
ghost use Rattle.matroid_theory.specs.Matroid.{members, IsIndependentIn, IsBasis, Agrees};
ghost use Rattle.bases.specs.FactorColumns.{IsFactorOf};

use crate::factor::FactorColumns;
use column_sets::first_of_size;
use field_tables::Mask;
use product_rep::Rep;

/// Whether the set is a basis of the first factor. The set lies within the size: bit j stands for column j.
pub fn is_basis(rep: &Rep, set: Mask) -> bool
    requires { set < 2 ^ size rep.now }
    ensures { IsTrue result ↔ IsBasis rep.now 0 (members set) }
{
    rep.laws();
    has_rank_many(rep, set) && is_independent(rep, 0, set)
}

/// Whether every factor has a basis, and all factors have the same bases.
pub fn agree(rep: &Rep) -> bool
    ensures { IsTrue result ↔ Agrees rep.now }
{
    rep.laws();
    let first = FactorColumns::of(rep, 0);
    has_basis(rep, &first) && have_same_bases(rep, &first)
}

/// Whether the first factor has a basis.
fn has_basis(rep: &Rep, first: &FactorColumns) -> bool
    requires { IsFactorOf rep.now 0 first.now.field first.now.columns.items }
    ensures { IsTrue result ↔ ((S : ℕ → Bool) × IsBasis rep.now 0 S) }
{
    rep.laws();
    first_of_size(rep.size(), rep.rank(), |set| first.is_independent(set)).is_some()
}

/// Whether all factors have the bases of the first.
fn have_same_bases(rep: &Rep, first: &FactorColumns) -> bool
    requires { IsFactorOf rep.now 0 first.now.field first.now.columns.items }
    ensures { IsTrue result ↔ ((f : ℕ) → f < count rep.now → (S : ℕ → Bool) → (IsBasis rep.now 0 S ↔ IsBasis rep.now f S)) }
{
    for factor in 1..rep.factors().count() {
        if !is_alike(rep, first, factor) {
            return false;
        }
    }
    true
}

/// Whether the factor has the bases of the first.
fn is_alike(rep: &Rep, first: &FactorColumns, factor: usize) -> bool
    requires first { IsFactorOf rep.now 0 first.now.field first.now.columns.items }
    requires factor { factor < count rep.now }
    ensures { IsTrue result ↔ ((S : ℕ → Bool) → (IsBasis rep.now 0 S ↔ IsBasis rep.now factor S)) }
{
    rep.laws();
    let other = FactorColumns::of(rep, factor);
    first_of_size(rep.size(), rep.rank(), |set| first.differs(&other, set)).is_none()
}

/// Whether the set, which lies within the size, has as many elements as the rank.
fn has_rank_many(rep: &Rep, set: Mask) -> bool
    requires { set < 2 ^ size rep.now }
    ensures { IsTrue result ↔ (size_below (size rep.now) (members set) ≡ rep.now.rank) }
{
    set.count_ones() as usize == rep.rank()
}

/// Whether the columns in the set are independent in one factor. Numbers beyond the last column don't count.
pub fn is_independent(rep: &Rep, factor: usize, set: Mask) -> bool
    requires { factor < count rep.now }
    ensures { IsTrue result ↔ IsIndependentIn rep.now factor (members set) }
{
    rep.laws();
    FactorColumns::of(rep, factor).is_independent(set)
}
