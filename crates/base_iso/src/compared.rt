//! Matroids that are compared with each other.
ghost use Rattle.std.specs.Prelude.{◌≡◌, ℕ, IfSome, IsNone, length, slice_index};
ghost use Rattle.matroid_theory.specs.Minor.{AreIsomorphicBy};
ghost use Rattle.base_iso.specs.Counted.{ArePairCounts, AreDegrees, AreAlike};

use crate::Labels;
use crate::counts::{Counts, are_alike, are_same};
use crate::search::try_labels;
use bases::BaseList;
use std::marker::Model;

/// A matroid's bases, of which it is counted once how many hold given elements, so that comparing it with many others is cheap.
/// Contracts see the matroid.
#[derive(Drop)]
pub struct Counted {
    list: BaseList,
    counts: Counts,
}

impl Model for Counted {
    ghost use Rattle.matroid_theory.specs.Minor.{Matroid};
    ghost use Rattle.base_iso.specs.Counted.{AreCounts};

    ghost Value = { Matroid };

    ghost view = { λ s. s.list };

    ghost invariant = { λ s. AreCounts s.list s.counts.pairs.items s.counts.degrees.items };
}

impl Counted {
    /// The matroid with these bases.
    pub fn of(list: BaseList) -> Counted
        ensures { result ≡ list }
    {
        let counts = Counts::of(&list);
        Counted { list, counts }
    }
}

/// A relabelling that carries the bases of the one matroid exactly to those of the other; none where there is none.
pub fn isomorphism(a: &BaseList, b: &BaseList) -> Option<Labels>
    ensures found { IfSome result (λ labels. (u : ℕ → ℕ) × AreIsomorphicBy a.now b.now (slice_index labels.items) u) }
    ensures all { IfSome result (λ labels. length labels.items ≡ a.now.size) }
    ensures none { IsNone result → (p u : ℕ → ℕ) → ¬ (AreIsomorphicBy a.now b.now p u) }
{
    if are_alike(a, b) {
        isomorphism_by(a, b, &Counts::of(a), &Counts::of(b))
    } else {
        None
    }
}

/// The same of matroids whose bases are counted.
pub fn isomorphism_of(a: &Counted, b: &Counted) -> Option<Labels>
    ensures found { IfSome result (λ labels. (u : ℕ → ℕ) × AreIsomorphicBy a.now b.now (slice_index labels.items) u) }
    ensures all { IfSome result (λ labels. length labels.items ≡ a.now.size) }
    ensures none { IsNone result → (p u : ℕ → ℕ) → ¬ (AreIsomorphicBy a.now b.now p u) }
{
    if are_alike(&a.list, &b.list) {
        isomorphism_by(&a.list, &b.list, &a.counts, &b.counts)
    } else {
        None
    }
}

/// The same of matroids of one rank and size with equally many bases, by what is counted of both.
fn isomorphism_by(a: &BaseList, b: &BaseList, of_a: &Counts, of_b: &Counts) -> Option<Labels>
    requires alike { AreAlike a.now b.now }
    requires pairs_of_a { ArePairCounts a.now of_a.now.pairs.items }
    requires pairs_of_b { ArePairCounts b.now of_b.now.pairs.items }
    requires degrees_of_a { AreDegrees a.now of_a.now.degrees.items }
    requires degrees_of_b { AreDegrees b.now of_b.now.degrees.items }
    ensures found { IfSome result (λ labels. (u : ℕ → ℕ) × AreIsomorphicBy a.now b.now (slice_index labels.items) u) }
    ensures all { IfSome result (λ labels. length labels.items ≡ a.now.size) }
    ensures none { IsNone result → (p u : ℕ → ℕ) → ¬ (AreIsomorphicBy a.now b.now p u) }
{
    a.laws();
    b.laws();
    if !are_same(&of_a.degrees, &of_b.degrees) {
        return None;
    }
    try_labels(a, b, &of_a.pairs, &of_b.pairs, Labels::new())
}
