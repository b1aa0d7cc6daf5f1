//! The sets of the first columns, one after another.
ghost use Rattle.std.specs.Prelude.{◌≡◌, ◌<◌, ◌≤◌, ◌-◌, ◌^◌, ◌↔◌, ℕ, Bool, true, false, not, IsTrue, IfOk};
ghost use Rattle.matroid_theory.specs.Matrix.{size_below};
ghost use Rattle.matroid_theory.specs.Matroid.{members};
ghost use Rattle.column_sets.specs.Sets.{IsSetOfSize, AreTaken, IsFirstTaken};

use arrayvec::ArrayVec;
use field_tables::Mask;
use std::alloc::{AllocError, Global};

/// A list of sets of one size. Of at most 10 columns there are no more than 252.
pub type FewSets = ArrayVec<Mask, 252>;

/// How many sets of the first `n` columns there are: their masks are the numbers below it.
pub fn set_count(n: usize) -> u32
    requires { n ≤ 16 }
    ensures value { result ≡ 2 ^ n }
    ensures masks { result ≤ 65536 }
{
    1 << n
}

/// Whether the set has column `j`.
pub fn in_set(set: Mask, j: usize) -> bool
    requires { j < 16 }
    ensures { result ≡ members set j }
{
    set >> j & 1 == 1
}

/// The columns of the first `n` that the set, which lies within them, doesn't have.
pub fn complement(n: usize, set: Mask) -> Mask
    requires few { n ≤ 16 }
    requires set { set < 2 ^ n }
    ensures value { result ≡ 2 ^ n - 1 - set }
    ensures others { (j : ℕ) → j < n → members result j ≡ not (members set j) }
{
    (set_count(n) - 1 - u32::from(set)) as Mask
}

/// Whether the set, which lies within the first `n` columns, has `k` elements.
fn has_size(n: usize, k: usize, set: Mask) -> bool
    requires { set < 2 ^ n }
    ensures { IsTrue result ↔ IsSetOfSize n k set }
{
    let _columns = n;
    set.count_ones() as usize == k
}

/// Whether the set has `k` elements and the test takes it.
fn takes<F: Fn(Mask) -> bool>(n: usize, k: usize, set: Mask, test: &F) -> bool
    requires set { set < 2 ^ n }
    requires callable { IsSetOfSize n k set → F.pre test.now set }
    ensures yes { IsTrue result → IsSetOfSize n k set × F.post test.now set true }
    ensures no { result ≡ false → IsSetOfSize n k set → F.post test.now set false }
{
    has_size(n, k, set) && test(set)
}

/// The first set of the first `n` columns, in the order of the masks, that the test takes.
pub fn first_set<F: Fn(Mask) -> bool>(n: usize, test: F) -> Option<Mask>
    requires few { n ≤ 16 }
    requires callable { (X : ℕ) → X < 2 ^ n → F.pre test X }
    ensures { IsFirstTaken (λ X. X < 2 ^ n) (λ X b. F.post test X b) result }
{
    for set in 0..set_count(n) {
        if test(set as Mask) {
            return Some(set as Mask);
        }
    }
    None
}

/// The first set of `k` of the first `n` columns, in the order of the masks, that the test takes.
pub fn first_of_size<F: Fn(Mask) -> bool>(n: usize, k: usize, test: F) -> Option<Mask>
    requires few { n ≤ 16 }
    requires callable { (X : ℕ) → IsSetOfSize n k X → F.pre test X }
    ensures { IsFirstTaken (IsSetOfSize n k) (λ X b. F.post test X b) result }
{
    for set in 0..set_count(n) {
        let set = set as Mask;
        if takes(n, k, set, &test) {
            return Some(set);
        }
    }
    None
}

/// The sets of `k` of the first `n` columns that the test takes, from the lowest mask up.
///
/// # Errors
///
/// `AllocError` where there was no memory for the list.
pub fn sets_of_size<F: Fn(Mask) -> bool>(
    alloc: Global,
    n: usize,
    k: usize,
    test: F,
) -> Result<Vec<Mask>, AllocError>
    requires few { n ≤ 16 }
    requires callable { (X : ℕ) → IsSetOfSize n k X → F.pre test X }
    ensures { IfOk result (λ v. AreTaken n k (λ X b. F.post test X b) v.items) }
{
    let mut sets = Vec::new(alloc);
    for set in 0..set_count(n) {
        let set = set as Mask;
        if takes(n, k, set, &test) {
            sets.push(set)?;
        }
    }
    Ok(sets)
}

/// The same, of at most 10 columns. It takes no memory.
pub fn few_sets_of_size<F: Fn(Mask) -> bool>(n: usize, k: usize, test: F) -> FewSets
    requires few { n ≤ 10 }
    requires callable { (X : ℕ) → IsSetOfSize n k X → F.pre test X }
    ensures { AreTaken n k (λ X b. F.post test X b) result.items }
{
    let mut sets = FewSets::new();
    for set in 0..set_count(n) {
        let set = set as Mask;
        if takes(n, k, set, &test) {
            sets.push(set);
        }
    }
    sets
}
