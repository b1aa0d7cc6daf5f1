//! Laws over the definitions of duals, each the contract of a function with an empty body.
ghost use Rattle.std.specs.Prelude.{◌≡◌, ◌≢◌, ◌^◌, ◌+◌, ◌-◌, ◌<◌, ◌≤◌, ◌⊎◌, ◌↔◌, ℕ, List, Bool};
ghost use Rattle.std.specs.List.{Contains};
ghost use Rattle.std.specs.declared.cmp.Ordering.TheVariants.{Less as less};
ghost use Rattle.matroid_theory.specs.Rep.{Rep, shape, size, matrix, IsShaped, IsStandard};
ghost use Rattle.matroid_theory.specs.Matroid.{Agrees};
ghost use Rattle.matroid_theory.specs.declared.Mode.{Mode};
ghost use Rattle.matroid_theory.specs.Move.{AreEquivalent};
ghost use Rattle.matroid_theory.specs.Order.{rep_cmp, IsForm};
ghost use Rattle.matroid_theory.specs.Minor.{Matroid};
ghost use Rattle.matroid_theory.specs.Given.{Given, IsColumnBasis, IsGivenBasis};
ghost use Rattle.matroid_theory.specs.Given.Given.{DualOfColumns};
ghost use Rattle.dual_theory.specs.Dual.{IsDualBasis, IsDualRep, HasBases, AreOrthogonal, IsDualForm, IsStandardDual};
ghost use Rattle.dual_theory.specs.Represented.{Represents, IsLeastOver, AgreeBefore, IsBasedFirst, IsStandardOver, KeepsBasesAt, Completes, IsLeastCompletion};

/// Where M is standard, [I | D], there is the representation made of -D transposed followed by the unit columns. It is
/// orthogonal to M, and each of its factors has a basis.
pub fn standard_duals()
    ensures exists { (M : Rep) → IsShaped M → IsStandard M → (N : Rep) × IsShaped N × IsStandardDual M N }
    ensures orthogonal { (M N : Rep) → IsShaped M → IsStandard M → IsStandardDual M N → AreOrthogonal M N }
    ensures bases { (M N : Rep) → IsShaped M → IsStandard M → IsStandardDual M N → HasBases N }
{}

/// The bases of an orthogonal representation are the complements, where each factor of both has a basis. So its factors
/// agree where those of the other do.
pub fn orthogonal_bases()
    ensures symmetric { (M N : Rep) → IsShaped M → AreOrthogonal M N → AreOrthogonal N M }
    ensures complements { (M N : Rep) → IsShaped M → IsShaped N → AreOrthogonal M N → HasBases M → HasBases N → IsDualRep M N }
    ensures agreement { (M N : Rep) → IsShaped M → IsShaped N → AreOrthogonal M N → Agrees M → HasBases N → Agrees N }
{}

/// A matroid that is given as the dual of the columns has the bases of that dual.
pub fn given_duals()
    ensures { (q : ℕ) (columns : List (List ℕ)) (S : ℕ → Bool) →
        IsGivenBasis (DualOfColumns q columns) S ↔ IsDualBasis (IsColumnBasis q columns) S }
{}

/// Equivalent representations have equivalent orthogonal representations, so they have the same dual form, and only one. The
/// dual form of the dual form of a form is that form, so forms with the same dual form are equal.
pub fn dual_forms()
    ensures orthogonal { (mode : Mode) (M L N K : Rep) → AreEquivalent mode M L → AreOrthogonal M N → AreOrthogonal L K →
        HasBases M → IsShaped N → HasBases N → IsShaped K → HasBases K → AreEquivalent mode N K }
    ensures one { (mode : Mode) (M L N K : Rep) → AreEquivalent mode M L → HasBases M →
        IsDualForm mode M N → IsDualForm mode L K → N ≡ K }
    ensures kept { (mode : Mode) (M L N : Rep) → AreEquivalent mode M L → IsDualForm mode M N → IsDualForm mode L N }
    ensures twice { (mode : Mode) (M N : Rep) → IsForm mode M → IsDualForm mode M N → IsDualForm mode N M }
    ensures apart { (mode : Mode) (M L N : Rep) → IsForm mode M → IsForm mode L →
        IsDualForm mode M N → IsDualForm mode L N → M ≡ L }
{}

/// Where a matrix over a field has exactly these bases, with the first elements one of them, a standard one has. There is at
/// most one least standard one.
pub fn representations()
    ensures standard { (q : ℕ) (N : Matroid) (M : Rep) → Represents q N M → Contains N.bases (2 ^ N.rank - 1) →
        N.rank ≤ N.size → (L : Rep) × IsStandard L × Represents q N L }
    ensures one { (q : ℕ) (N : Matroid) (M L : Rep) → IsLeastOver q N M → IsLeastOver q N L → M ≡ L }
{}

/// A search that fills a standard matrix column by column, each from the top row, and tests at each entry the sets that are
/// told there. A matrix that keeps the bases at each entry has exactly these bases. One that doesn't keep them at an entry
/// has no completion. Of two completions that differ first at an entry the one with the smaller code there is less. Where
/// the entries above in the column are 0, or the earlier ones in the row, a completion with an entry that isn't 0 gives one with the entry 1.
pub fn searches()
    ensures exact { (q : ℕ) (N : Matroid) (M : Rep) → 0 < N.rank → IsBasedFirst N → IsStandardOver q N M →
        ((i j : ℕ) → i < N.rank → N.rank ≤ j → j < N.size → KeepsBasesAt N M i j) → Represents q N M }
    ensures given_up { (q : ℕ) (N : Matroid) (M L : Rep) (i j : ℕ) → 0 < N.rank → IsStandardOver q N M →
        N.rank ≤ j → j < N.size → ¬ (KeepsBasesAt N M i j) → ¬ (Completes q N M (i + 1) j L) }
    ensures smaller { (q : ℕ) (N : Matroid) (M L K : Rep) (i j : ℕ) → i < M.rank → j < size M → shape L ≡ shape M → shape K ≡ shape M →
        Represents q N L → Represents q N K → AgreeBefore M L i j → AgreeBefore M K i j →
        matrix L 0 i j < matrix K 0 i j → rep_cmp L K ≡ less }
    ensures made_one { (q : ℕ) (N : Matroid) (M L : Rep) (i j : ℕ) → shape L ≡ shape M → i < M.rank → M.rank ≤ j → j < size M →
        Completes q N M i j L → matrix L 0 i j ≢ 0 →
        (((l : ℕ) → l < i → matrix M 0 l j ≡ 0) ⊎ ((k : ℕ) → M.rank ≤ k → k < j → matrix M 0 i k ≡ 0)) →
        (K : Rep) × Completes q N M i j K × (matrix K 0 i j ≡ 1) }
{}

/// The search goes by its completions. The least completion from the first entry is the least of all, and where there is none,
/// there is no standard one. After the last row of a column comes the first of the next. A whole matrix with the bases is its
/// own least completion. The least completion with an entry set is the least one, where none has a smaller entry there.
pub fn filling()
    ensures start { (q : ℕ) (N : Matroid) (M : Rep) → IsStandardOver q N M → (L : Rep) → IsLeastCompletion q N M 0 M.rank L → IsLeastOver q N L }
    ensures none { (q : ℕ) (N : Matroid) (M : Rep) → IsStandardOver q N M → ((L : Rep) → ¬ (Completes q N M 0 M.rank L)) →
        (L : Rep) → Represents q N L → ¬ (IsStandard L) }
    ensures next { (q : ℕ) (N : Matroid) (M : Rep) → IsStandardOver q N M → (j : ℕ) (L : Rep) →
        Completes q N M M.rank j L → Completes q N M 0 (j + 1) L }
    ensures last { (q : ℕ) (N : Matroid) (M : Rep) → IsStandardOver q N M → (j : ℕ) (L : Rep) →
        Completes q N M 0 (j + 1) L → Completes q N M M.rank j L }
    ensures whole { (q : ℕ) (N : Matroid) (M : Rep) → IsStandardOver q N M → Represents q N M → IsLeastCompletion q N M 0 (size M) M }
    ensures entry { (q : ℕ) (N : Matroid) (M K L : Rep) (i j : ℕ) → IsStandardOver q N M → IsStandardOver q N K → i < M.rank →
        j < size M → AgreeBefore M K i j → IsLeastCompletion q N K (i + 1) j L →
        ((P : Rep) → Completes q N M i j P → ¬ (matrix P 0 i j < matrix K 0 i j)) → IsLeastCompletion q N M i j L }
{}
