//! How many bases hold given elements, which an isomorphism keeps.
ghost use Rattle.std.specs.Prelude.{◌≡◌, ◌<◌, ◌↔◌, ℕ, IsTrue, false, length, slice_index};
ghost use Rattle.std.specs.List.Sorted.{IsPermutation, IsNonDecreasing};
ghost use Rattle.matroid_theory.specs.Minor.{Matroid, AreIsomorphicBy};
ghost use Rattle.base_iso.specs.Started.{AreLabels};
ghost use Rattle.base_iso.specs.Counted.{pair_count, row, AreDegrees, ArePairCountsOf, ArePairCounts, IsSquare, KeepsLastCounts, AreAlike};

use arrayvec::ArrayVec;
use bases::BaseList;
use column_sets::in_set;
use field_tables::Mask;

/// For each two elements, how many bases hold both.
pub type PairCounts = ArrayVec<ArrayVec<usize, 16>, 16>;

/// For each element, how many bases hold it, in rising order.
pub type Degrees = ArrayVec<usize, 16>;

/// How many bases of one matroid hold given elements.
#[derive(Drop)]
pub struct Counts {
    pub pairs: PairCounts,
    pub degrees: Degrees,
}

impl Counts {
    /// Those of the bases of this list.
    pub fn of(list: &BaseList) -> Counts
        ensures pairs { ArePairCounts list.now result.pairs.items }
        ensures degrees { AreDegrees list.now result.degrees.items }
    {
        let pairs = pair_counts(list);
        let degrees = degrees(&pairs);
        Counts { pairs, degrees }
    }
}

/// Whether ranks, sizes and numbers of bases are the same. No others are isomorphic.
pub fn are_alike(a: &BaseList, b: &BaseList) -> bool
    ensures alike { IsTrue result → AreAlike a.now b.now }
    ensures others { result ≡ false → (p u : ℕ → ℕ) → ¬ (AreIsomorphicBy a.now b.now p u) }
{
    a.laws();
    b.laws();
    have_same_numbers(a, b)
}

/// Whether ranks, sizes and numbers of bases are the same.
fn have_same_numbers(a: &BaseList, b: &BaseList) -> bool
    ensures { IsTrue result ↔ AreAlike a.now b.now }
{
    a.rank() == b.rank() && a.size() == b.size() && a.bases().len() == b.bases().len()
}

/// For each two elements, how many bases hold both.
fn pair_counts(list: &BaseList) -> PairCounts
    ensures { ArePairCounts list.now result.items }
{
    let mut rows = PairCounts::new();
    for i in 0..list.size() {
        rows.push(counts_with(list, i));
    }
    rows
}

/// For each element, how many bases hold it and element `i`.
fn counts_with(list: &BaseList, i: u8) -> ArrayVec<usize, 16>
    requires { i < list.now.size }
    ensures { ArePairCountsOf list.now i result.items }
{
    let mut counts = ArrayVec::new();
    for j in 0..list.size() {
        counts.push(pair_count(list.bases(), i, j));
    }
    counts
}

/// How many of the sets hold both elements.
fn pair_count(bases: &[Mask], i: u8, j: u8) -> usize
    requires i { i < 16 }
    requires j { j < 16 }
    ensures { result ≡ pair_count bases.now i j }
{
    bases
        .iter()
        .filter(|set| in_set(**set, usize::from(i)) && in_set(**set, usize::from(j)))
        .count()
}

/// For each element, how many bases hold it, in rising order, by the pair counts.
fn degrees(pairs: &PairCounts) -> Degrees
    requires { IsSquare (length pairs.now.items) pairs.now.items }
    ensures { (M : Matroid) → ArePairCounts M pairs.now.items → AreDegrees M result.items }
{
    let mut degrees = diagonal(pairs);
    sort(&mut degrees);
    degrees
}

/// Row by row, the number at the row's own place.
fn diagonal(pairs: &PairCounts) -> Degrees
    requires { IsSquare (length pairs.now.items) pairs.now.items }
    ensures elements { length result.items ≡ length pairs.now.items }
    ensures at { (i : ℕ) → i < length pairs.now.items → slice_index result.items i ≡ slice_index (row pairs.now.items i) i }
{
    let mut numbers = Degrees::new();
    for (i, row) in pairs.as_slice().iter().enumerate() {
        numbers.push(row.as_slice()[i]);
    }
    numbers
}

/// Puts the numbers in rising order.
fn sort(numbers: &mut Degrees)
    ensures permutation { IsPermutation numbers.old.items numbers.new.items }
    ensures rising { IsNonDecreasing numbers.new.items }
{
    numbers.as_mut_slice().sort_unstable();
}

/// Whether the degrees are the same: whether for each number equally many elements lie in so many bases.
pub fn are_same(a: &Degrees, b: &Degrees) -> bool
    ensures { IsTrue result ↔ (a.now.items ≡ b.now.items) }
{
    a.as_slice() == b.as_slice()
}

/// Whether the last element that has a label lies with each that has one in as many bases as their labels lie together.
pub fn keeps_last_counts(of_a: &PairCounts, of_b: &PairCounts, labels: &[u8]) -> bool
    requires square { IsSquare (length of_a.now.items) of_a.now.items }
    requires same_square { IsSquare (length of_a.now.items) of_b.now.items }
    requires labels { AreLabels (length of_a.now.items) labels.now }
    requires some { 0 < length labels.now }
    ensures { IsTrue result ↔ KeepsLastCounts of_a.now.items of_b.now.items labels.now }
{
    let last = labels.len() - 1;
    let of_last = of_a.as_slice()[last].as_slice();
    let of_label = of_b.as_slice()[usize::from(labels[last])].as_slice();
    for (i, label) in labels.iter().enumerate() {
        if of_last[i] != of_label[usize::from(*label)] {
            return false;
        }
    }
    true
}
