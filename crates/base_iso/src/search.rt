//! The search for an isomorphism, element by element.
ghost use Rattle.std.specs.Prelude.{◌≡◌, ◌<◌, ◌++◌, ◌∷◌, [], ℕ, IfSome, IsNone, IsTrue, false, length, slice_index};
ghost use Rattle.matroid_theory.specs.Minor.{AreIsomorphicBy};
ghost use Rattle.base_iso.specs.Started.{AreLabels, CarriesBases, CarriesLast, NoneBegins};
ghost use Rattle.base_iso.specs.Counted.{ArePairCounts, AreAlike};

use crate::Labels;
use crate::carried::{carries_last, keeps_count};
use crate::counts::{PairCounts, keeps_last_counts};
use bases::BaseList;
use small_lists::followed_by;

/// An isomorphism that gives the first elements these labels; none where there is none. The pair counts of both matroids are known.
pub fn try_labels(
    a: &BaseList,
    b: &BaseList,
    of_a: &PairCounts,
    of_b: &PairCounts,
    labels: Labels,
) -> Option<Labels>
    requires alike { AreAlike a.now b.now }
    requires of_a { ArePairCounts a.now of_a.now.items }
    requires of_b { ArePairCounts b.now of_b.now.items }
    requires labels { AreLabels a.now.size labels.items }
    requires bases { CarriesBases a.now b.now labels.items }
    ensures found { IfSome result (λ found. (u : ℕ → ℕ) × AreIsomorphicBy a.now b.now (slice_index found.items) u) }
    ensures all { IfSome result (λ found. length found.items ≡ a.now.size) }
    ensures none { IsNone result → NoneBegins a.now b.now labels.items }
{
    if labels.len() == usize::from(a.size()) {
        return Some(labels);
    }
    for label in 0..a.size() {
        if let Some(longer) = extended(a, b, of_a, of_b, &labels, label) {
            if let Some(found) = try_labels(a, b, of_a, of_b, longer) {
                return Some(found);
            }
        }
    }
    None
}

/// These labels followed by one more; none where a cut shows that no isomorphism begins so.
fn extended(
    a: &BaseList,
    b: &BaseList,
    of_a: &PairCounts,
    of_b: &PairCounts,
    labels: &Labels,
    label: u8,
) -> Option<Labels>
    requires alike { AreAlike a.now b.now }
    requires of_a { ArePairCounts a.now of_a.now.items }
    requires of_b { ArePairCounts b.now of_b.now.items }
    requires labels { AreLabels a.now.size labels.now.items }
    requires bases { CarriesBases a.now b.now labels.now.items }
    requires few { length labels.now.items < a.now.size }
    requires label { label < a.now.size }
    ensures labels { IfSome result (λ longer. longer.items ≡ labels.now.items ++ label ∷ []) }
    ensures different { IfSome result (λ longer. AreLabels a.now.size longer.items) }
    ensures bases { IfSome result (λ longer. CarriesBases a.now b.now longer.items) }
    ensures none { IsNone result → NoneBegins a.now b.now (labels.now.items ++ label ∷ []) }
{
    a.laws();
    if labels.as_slice().contains(&label) {
        return None;
    }
    let longer: Labels = followed_by(labels.as_slice(), label);
    if may_begin(a, b, of_a, of_b, longer.as_slice()) {
        Some(longer)
    } else {
        None
    }
}

/// Whether an isomorphism may give the first elements these labels, as far as the last of them tells: by its pair counts, by
/// the number of bases of labelled elements, and by those of them that it is in.
fn may_begin(
    a: &BaseList,
    b: &BaseList,
    of_a: &PairCounts,
    of_b: &PairCounts,
    labels: &[u8],
) -> bool
    requires alike { AreAlike a.now b.now }
    requires of_a { ArePairCounts a.now of_a.now.items }
    requires of_b { ArePairCounts b.now of_b.now.items }
    requires labels { AreLabels a.now.size labels.now }
    requires some { 0 < length labels.now }
    ensures bases { IsTrue result → CarriesLast a.now.bases b.now.bases labels.now }
    ensures none { result ≡ false → NoneBegins a.now b.now labels.now }
{
    a.laws();
    b.laws();
    keeps_last_counts(of_a, of_b, labels)
        && keeps_count(a.bases(), b.bases(), labels)
        && carries_last(a.bases(), b.bases(), labels)
}
