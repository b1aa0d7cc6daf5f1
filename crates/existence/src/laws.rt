//! Laws over the definitions, each the contract of a function with an empty body.
ghost use Rattle.std.specs.Prelude.{◌≡◌, ◌≤◌, ◌<◌, ◌↔◌, ℕ, List};
ghost use Rattle.matroid_theory.specs.declared.Mode.{Mode};
ghost use Rattle.matroid_theory.specs.Field.{IsOrder};
ghost use Rattle.matroid_theory.specs.Rep.{Rep};
ghost use Rattle.matroid_theory.specs.Matroid.{IsRepresentation};
ghost use Rattle.matroid_theory.specs.Move.{AreEquivalent};
ghost use Rattle.matroid_theory.specs.Order.{IsForm};
ghost use Rattle.matroid_theory.specs.Minor.{Matroid, IsMinor, HaveSameMatroid};
ghost use Rattle.matroid_theory.specs.Connection.{IsConnected, Is3Connected, IsCosimple};
ghost use Rattle.matroid_theory.specs.Given.{AllSets, ColumnsOver, DualOfColumns};
ghost use Rattle.matroid_theory.specs.Level.{Family, Filters, IsMember, IsLevelForm, IsLevel, IsListed, Passes, IsTry, IsTryFor, followed_by};
ghost use Rattle.existence.specs.Decided.{IsDecided};
ghost use Rattle.existence.specs.Exists.{HasForm, HasLevel, HasListedForms, HasOneOfEachClass, distinct_alone, HasOneOfEachMatroid, HasTryCount, HasTry, HasMatroid, AreCodes};

/// Each question that the definitions ask of representations has an answer, since finitely many moves, representations
/// and embeddings count.
pub fn questions_are_decided()
    ensures equivalence { (mode : Mode) (M N : Rep) → IsDecided (AreEquivalent mode M N) }
    ensures form { (mode : Mode) (M : Rep) → IsDecided (IsForm mode M) }
    ensures minor { (N : Matroid) (M : Rep) → IsRepresentation M → IsDecided (IsMinor N M) }
    ensures member { (q : Family) (n : ℕ) (M : Rep) → IsDecided (IsMember q n M) }
    ensures filters { (q : Family) (n : ℕ) (filters : Filters) (M : Rep) → IsRepresentation M →
        IsDecided (Passes q n filters M) }
    ensures tries { (q : Family) (n : ℕ) (try : Rep × List ℕ) → IsDecided (IsTry q n try) }
{}

/// Each class of equivalent representations has a form.
pub fn each_class_has_a_form()
    ensures { (mode : Mode) (M : Rep) → IsRepresentation M → HasForm mode M }
{}

/// Each family has a level of each size, a list of what is listed of it, and a number of tries.
pub fn each_size_has_a_level()
    ensures level { (q : Family) (n : ℕ) → HasLevel q n }
    ensures listed { (q : Family) (n : ℕ) (filters : Filters) → HasListedForms q n filters }
    ensures tries { (q : Family) (n : ℕ) → HasTryCount q n }
{}

/// A level has one of each class: its forms are members, each member is equivalent to one of them, and to one alone.
pub fn levels_have_one_of_each_class()
    ensures { (q : Family) (n : ℕ) (forms : List Rep) → IsLevel q n forms → HasOneOfEachClass q n forms }
{}

/// Having the same matroid is symmetric and transitive, and equivalent representations have it.
pub fn having_the_same_matroid()
    ensures equivalent { (mode : Mode) (M N : Rep) → IsRepresentation M → AreEquivalent mode M N → HaveSameMatroid M N }
    ensures symmetric { (M N : Rep) → HaveSameMatroid M N → HaveSameMatroid N M }
    ensures transitive { (M N L : Rep) → HaveSameMatroid M N → HaveSameMatroid N L → HaveSameMatroid M L }
{}

/// Minors, connectivity, 3-connectivity and cosimplicity are properties of the matroid, so of the class.
pub fn filters_look_at_the_matroid()
    ensures minors { (M N : Rep) (K : Matroid) → HaveSameMatroid M N → IsMinor K M ↔ IsMinor K N }
    ensures connected { (M N : Rep) → IsRepresentation M → IsRepresentation N → HaveSameMatroid M N →
        IsConnected M ↔ IsConnected N }
    ensures three { (M N : Rep) → IsRepresentation M → IsRepresentation N → HaveSameMatroid M N →
        Is3Connected M ↔ Is3Connected N }
    ensures cosimple { (M N : Rep) → IsRepresentation M → IsRepresentation N → HaveSameMatroid M N →
        IsCosimple M ↔ IsCosimple N }
{}

/// What is listed of a level with the filter for distinct matroids alone has one of each matroid.
pub fn distinct_lists_have_one_of_each_matroid()
    ensures { (q : Family) (n : ℕ) (forms : List Rep) → IsListed q n distinct_alone forms →
        HasOneOfEachMatroid q n forms }
{}

/// Equivalent representations are members of a family together.
pub fn equivalence_keeps_members()
    ensures { (mode : Mode) (q : Family) (n : ℕ) (M N : Rep) → AreEquivalent mode M N →
        IsMember q n M ↔ IsMember q n N }
{}

/// A level of size above the rank has exactly the forms of the tries of its size. Each try has a form, and each form of
/// the level is itself a form of the level before followed by its last column, which is a try for it.
pub fn levels_come_from_tries()
    ensures exactly { (q : Family) (n : ℕ) (N : Rep) → q.rank < n → IsLevelForm q n N ↔ HasTry q n N }
    ensures each_try { (q : Family) (n : ℕ) (try : Rep × List ℕ) → IsTry q n try → (N : Rep) × IsTryFor q n N try }
    ensures own_try { (q : Family) (n : ℕ) (N : Rep) → q.rank < n → IsLevelForm q n N →
        (P : Rep) × (v : List ℕ) × (N ≡ followed_by P v) × IsTryFor q n N (P, v) }
{}

/// All sets of one size are the bases of a matroid, and so are the bases of the columns of a matrix, and their complements
/// (Oxley, chapters 1 and 2).
pub fn each_given_matroid_exists()
    ensures all_sets { (rank size : ℕ) → rank ≤ size → HasMatroid (AllSets rank size) }
    ensures columns { (q : ℕ) (columns : List (List ℕ)) → IsOrder q → AreCodes q columns → HasMatroid (ColumnsOver q columns) }
    ensures dual { (q : ℕ) (columns : List (List ℕ)) → IsOrder q → AreCodes q columns → HasMatroid (DualOfColumns q columns) }
{}
