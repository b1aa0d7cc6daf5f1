//! A law, the contract of a function with an empty body.
ghost use Rattle.std.specs.Prelude.{◌≡◌, ◌∷◌, ◌-◌, ◌^◌, [], ℕ, List};
ghost use Rattle.std.specs.List.{Contains};
ghost use Rattle.matroid_theory.specs.Minor.{Matroid};
ghost use Rattle.matroid_theory.specs.Given.{IsGivenBy};
ghost use Rattle.formats.specs.Minors.{given_as};
ghost use Rattle.formats.specs.Statement.{MinorName, IsMinorName, minor_words};

/// The first elements of a matroid that has a name are a base of it.
pub fn named_matroids_begin_with_base()
    ensures { (name : MinorName) (N : Matroid) (text : List ℕ) → IsMinorName name → minor_words name ≡ text ∷ [] →
        IsGivenBy (given_as name) N → Contains N.bases (2 ^ N.rank - 1) }
{}
