//! Laws of packings, each the contract of a function with an empty body.
ghost use Rattle.std.specs.Prelude.{◌≡◌, ℕ, List, map};
ghost use Rattle.std.specs.List.{All};
ghost use Rattle.std.specs.Cmp.Lexicographic.{slice_cmp};
ghost use Rattle.std.specs.Ordering.{nat_cmp};
ghost use Rattle.matroid_theory.specs.Rep.{Rep, shape, IsShaped, IsStandard};
ghost use Rattle.matroid_theory.specs.Order.{rep_cmp};
ghost use Rattle.matroid_theory.specs.Level.{Family, IsLevel};
ghost use Rattle.form_key.specs.Packing.{packing};
ghost use Rattle.form_key.specs.Keys.{AreLevelKeys, IsStandardOf};

/// Standard representations of one shape compare as their keys do, byte by byte.
pub fn packing_keeps_order()
    ensures { (M N : Rep) → shape M ≡ shape N → IsShaped M → IsShaped N → IsStandard M → IsStandard N →
        slice_cmp nat_cmp (packing M) (packing N) ≡ rep_cmp M N }
{}

/// Standard representations of one shape have one key only where they are equal.
pub fn packing_keeps_value()
    ensures { (M N : Rep) → shape M ≡ shape N → IsShaped M → IsShaped N → IsStandard M → IsStandard N →
        packing M ≡ packing N → M ≡ N }
{}

/// The keys of a level's forms are the strictly rising list of the keys of exactly the forms of that level, and standard
/// representations with these keys, in their order, are the level.
pub fn levels_by_keys()
    ensures keys { (q : Family) (n : ℕ) (forms : List Rep) → IsLevel q n forms → AreLevelKeys q n (map packing forms) }
    ensures level { (q : Family) (n : ℕ) (forms : List Rep) → All (IsStandardOf q n) forms → AreLevelKeys q n (map packing forms) →
        IsLevel q n forms }
{}
