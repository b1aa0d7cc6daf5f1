// Twins: elements of a small matroid whose exchange keeps the bases.
ghost use Rattle.std.specs.Prelude.{◌≡◌, ◌<◌, ◌^◌, ◌↔◌, ℕ, IsTrue, MatchOption};
ghost use Rattle.matroid_theory.specs.Matroid.{members};
ghost use Rattle.minor_test.specs.Tables.{HasMasks};
ghost use Rattle.minor_test.specs.Twins.{swapped, AreAllFound, AreTwins, AreTwinsOf};

use crate::table::SmallTable;
use arrayvec::ArrayVec;
use column_sets::in_set;
use field_tables::Mask;
use named_matroids::Minor;

/// For each element of a matroid a twin before it, if there is one.
pub type Twins = ArrayVec<Option<u8>, 10>;

/// For each element a twin before it, if there is one. The table has the bases.
pub fn twins_of(minor: &Minor, table: &SmallTable) -> Twins
    requires { HasMasks minor.now.bases table.now.words }
    ensures twins { AreTwinsOf minor.now result.items }
    ensures all { AreAllFound minor.now result.items minor.now.size }
{
    let mut twins = ArrayVec::new();
    for j in 0..minor.size() {
        twins.push(twin_before(minor, table, j));
    }
    twins
}

/// A twin of element `j` before it.
fn twin_before(minor: &Minor, table: &SmallTable, j: usize) -> Option<u8>
    requires table { HasMasks minor.now.bases table.now.words }
    requires element { j < minor.now.size }
    ensures { MatchOption result ((i : ℕ) → i < j → ¬ (AreTwins minor.now i j)) (λ i. AreTwins minor.now i j) }
{
    minor.laws();
    let mut twin = None;
    for i in 0..j {
        if are_twins(minor, table, i, j) {
            twin = Some(i as u8);
        }
    }
    twin
}

/// Whether the bases are the same with the elements in each other's place.
fn are_twins(minor: &Minor, table: &SmallTable, i: usize, j: usize) -> bool
    requires table { HasMasks minor.now.bases table.now.words }
    requires before { i < j }
    requires element { j < minor.now.size }
    ensures { IsTrue result ↔ AreTwins minor.now i j }
{
    minor.laws();
    for basis in minor.bases() {
        if !table.contains(exchanged(*basis, i, j)) {
            return false;
        }
    }
    true
}

/// The set with the elements in each other's place.
fn exchanged(set: Mask, i: usize, j: usize) -> Mask
    requires before { i < j }
    requires element { j < 16 }
    ensures members { (x : ℕ) → members result x ≡ members set (swapped i j x) }
    ensures below { (n : ℕ) → j < n → set < 2 ^ n → result < 2 ^ n }
{
    if in_set(set, i) == in_set(set, j) {
        set
    } else {
        set ^ (1 << i | 1 << j)
    }
}
