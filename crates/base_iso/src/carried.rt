//! The images of bases under labels.
ghost use Rattle.std.specs.Prelude.{◌≡◌, ◌<◌, ◌≤◌, ◌+◌, ◌^◌, ◌↔◌, ◌==◌, ℕ, IsTrue, slice_index, length, count_by, nat_lt, bit_or};
ghost use Rattle.std.specs.List.{Contains};
ghost use Rattle.std.specs.List.Sorted.{IsStrictlyIncreasing};
ghost use Rattle.base_iso.specs.Started.{AreLabels, IsImage, CarriesLast, IsOneOf, KeepsCount};

use column_sets::{in_set, set_count};
use field_tables::Mask;

/// Whether each set of `a` whose greatest element is the last one with a label goes to a set of `b`.
pub fn carries_last(a: &[Mask], b: &[Mask], labels: &[u8]) -> bool
    requires rising { IsStrictlyIncreasing a.now }
    requires other_rising { IsStrictlyIncreasing b.now }
    requires labels { AreLabels 16 labels.now }
    requires some { 0 < length labels.now }
    ensures { IsTrue result ↔ CarriesLast a.now b.now labels.now }
{
    for set in with_greatest(a, labels.len() - 1) {
        if !stands_in(b, image(labels, *set)) {
            return false;
        }
    }
    true
}

/// The sets of a rising list whose greatest element is this one.
fn with_greatest(sets: &[Mask], element: usize) -> &[Mask]
    requires rising { IsStrictlyIncreasing sets.now }
    requires element { element < 16 }
    ensures all { (X : ℕ) → 2 ^ element ≤ X → X < 2 ^ (element + 1) → Contains sets.now X → Contains result.now X }
    ensures no_others { (k : ℕ) → k < length result.now → IsOneOf sets.now element (slice_index result.now k) }
{
    let start = place_of(sets, set_count(element));
    let end = place_of(sets, set_count(element + 1));
    &sets[start..end]
}

/// The place of the first set of a rising list that isn't below this number.
fn place_of(sets: &[Mask], bound: u32) -> usize
    requires { IsStrictlyIncreasing sets.now }
    ensures within { result ≤ length sets.now }
    ensures below { (k : ℕ) → k < result → slice_index sets.now k < bound }
    ensures from { (k : ℕ) → result ≤ k → k < length sets.now → bound ≤ slice_index sets.now k }
{
    sets.partition_point(|set| u32::from(*set) < bound)
}

/// Whether as many sets of `a` consist of labelled elements as sets of `b` consist of labels.
pub fn keeps_count(a: &[Mask], b: &[Mask], labels: &[u8]) -> bool
    requires { AreLabels 16 labels.now }
    ensures { IsTrue result ↔ KeepsCount a.now b.now labels.now }
{
    count_below(a, set_count(labels.len())) == count_within(b, image(labels, Mask::MAX))
}

/// How many of the sets are below this number.
fn count_below(sets: &[Mask], end: u32) -> usize
    ensures { result ≡ count_by (λ X. nat_lt X end) sets.now }
{
    sets.iter().filter(|set| u32::from(**set) < end).count()
}

/// How many of the sets lie within this one.
fn count_within(sets: &[Mask], within: Mask) -> usize
    ensures { result ≡ count_by (λ X. bit_or X within == within) sets.now }
{
    sets.iter().filter(|set| **set | within == within).count()
}

/// Whether a rising list has this set.
pub fn stands_in(sets: &[Mask], set: Mask) -> bool
    requires { IsStrictlyIncreasing sets.now }
    ensures { IsTrue result ↔ Contains sets.now set }
{
    sets.binary_search(&set).is_ok()
}

/// The labels of the elements of a set.
fn image(labels: &[u8], set: Mask) -> Mask
    requires { AreLabels 16 labels.now }
    ensures { IsImage labels.now set result }
{
    let mut image = 0;
    for (i, label) in labels.iter().enumerate() {
        if in_set(set, i) {
            image |= 1 << *label;
        }
    }
    image
}
