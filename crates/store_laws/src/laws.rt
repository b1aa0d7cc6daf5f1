//! Laws over the definitions, each the contract of a function with an empty body.
ghost use Rattle.std.specs.Prelude.{◌≡◌, ◌≢◌, ◌<◌, ◌↔◌, ℕ, List, length, map};
ghost use Rattle.std.specs.List.{All, AllPairs, Contains};
ghost use Rattle.std.specs.Cmp.Lexicographic.{slice_cmp};
ghost use Rattle.std.specs.Ordering.{nat_cmp};
ghost use Rattle.std.specs.declared.cmp.Ordering.TheVariants.{Less};
ghost use Rattle.matroid_theory.specs.Rep.{Rep};
ghost use Rattle.matroid_theory.specs.Level.{Family, IsLevel, IsLevelForm};
ghost use Rattle.histories.specs.declared.entry.Entry.{Entry};
ghost use Rattle.histories.specs.History.{IsLegal};
ghost use Rattle.histories.specs.Counts.{AreItsKeys, new_keys};
ghost use Rattle.form_key.specs.Packing.{packing};
ghost use Rattle.form_key.specs.Keys.{AreLevelKeys, IsStandardOf};
ghost use Rattle.store_laws.specs.TryKeys.{AreTryKeys};

/// The core over every interleaving: where the keys of a legal history are those of the tries of a size above the rank, each
/// as often as it is the key of a try, the keys told New are the packings of exactly the forms of the level of that size,
/// each once, whatever the order of the history; so there are as many as the level has forms.
pub fn the_level_is_told_new()
    ensures exact { (q : Family) (n : ℕ) (keys : List (List ℕ)) (history : List Entry) (key : List ℕ) →
        q.rank < n → AreTryKeys q n keys → IsLegal history → AreItsKeys keys history →
        Contains (new_keys history) key ↔ ((M : Rep) × IsLevelForm q n M × (packing M ≡ key)) }
    ensures apart { (q : Family) (n : ℕ) (keys : List (List ℕ)) (history : List Entry) →
        q.rank < n → AreTryKeys q n keys → IsLegal history → AreItsKeys keys history →
        AllPairs (λ x y. x ≢ y) (new_keys history) }
    ensures count { (q : Family) (n : ℕ) (keys : List (List ℕ)) (history : List Entry) (forms : List Rep) →
        q.rank < n → AreTryKeys q n keys → IsLegal history → AreItsKeys keys history →
        IsLevel q n forms → length (new_keys history) ≡ length forms }
{}

/// The keys told New in such a history, put in strictly rising order, are the keys of the level, and standard representations
/// with these keys, in that order, are the level itself.
pub fn sorted_they_are_the_level()
    ensures keys { (q : Family) (n : ℕ) (keys : List (List ℕ)) (history : List Entry) (sorted : List (List ℕ)) →
        q.rank < n → AreTryKeys q n keys → IsLegal history → AreItsKeys keys history →
        AllPairs (λ a b. slice_cmp nat_cmp a b ≡ Less) sorted →
        ((key : List ℕ) → Contains sorted key ↔ Contains (new_keys history) key) → AreLevelKeys q n sorted }
    ensures level { (q : Family) (n : ℕ) (keys : List (List ℕ)) (history : List Entry) (forms : List Rep) →
        q.rank < n → AreTryKeys q n keys → IsLegal history → AreItsKeys keys history →
        All (IsStandardOf q n) forms → AllPairs (λ a b. slice_cmp nat_cmp a b ≡ Less) (map packing forms) →
        ((key : List ℕ) → Contains (map packing forms) key ↔ Contains (new_keys history) key) → IsLevel q n forms }
{}

/// Each size has such keys and a legal history of them, so what the laws above ask for is there.
pub fn each_size_has_such_a_history()
    ensures { (q : Family) (n : ℕ) → (keys : List (List ℕ)) × (history : List Entry) ×
        AreTryKeys q n keys × IsLegal history × AreItsKeys keys history }
{}
