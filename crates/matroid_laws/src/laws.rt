//! Laws over the definitions, each the contract of a function with an empty body.
ghost use Rattle.std.specs.Prelude.{◌≡◌, ◌≢◌, ◌+◌, ◌<◌, ◌≤◌, ◌↔◌, ◌==◌, ◌&&◌, ◌||◌, not, ℕ, List, Bool, true, false, length, slice_index};
ghost use Rattle.std.specs.declared.cmp.Ordering.{Ordering as Outcome};
ghost use Rattle.std.specs.declared.cmp.Ordering.TheVariants.{Less as less, Equal as equal};
ghost use Rattle.std.specs.Bool.{nat_lt};
ghost use Rattle.std.specs.Ordering.{ordering_reverse};
ghost use Rattle.matroid_theory.specs.Field.{IsOrder, IsField, IsSum, IsProduct, plus, times, inverse, degree, raised};
ghost use Rattle.matroid_theory.specs.Matrix.{Matrix, AreInverse, IsIndependent, IsIndependentPart, IsRankOf, combination, matrix_product, size_below};
ghost use Rattle.matroid_theory.specs.Rep.{Rep, Shape, shape, count, size, order, matrix, IsShaped, IsStandard};
ghost use Rattle.matroid_theory.specs.Matroid.{IsBasis, Agrees, IsSimple};
ghost use Rattle.matroid_theory.specs.declared.Mode.{Mode};
ghost use Rattle.matroid_theory.specs.Move.{Move, ArePermutation, AllowsPower, IsMove, TakesTo, AreEquivalent};
ghost use Rattle.matroid_theory.specs.Order.{rep_cmp, IsForm};
ghost use Rattle.matroid_theory.specs.Level.{Family, Filters, IsMember, IsLevelForm, IsLevel, IsListed, IsNormalised, IsTry, IsCount, followed_by};
ghost use Rattle.matroid_theory.specs.Minor.{Matroid};
ghost use Rattle.matroid_theory.specs.Given.{Given, IsGivenBy};

/// The operations of each of the nine orders are those of a field.
pub fn fields()
    ensures { (q : ℕ) → IsOrder q → IsField q }
{}

/// The sum and the product of two codes are the only codes that the polynomials allow.
pub fn operations_are_exact()
    ensures sum { (q a b c : ℕ) → IsOrder q → a < q → b < q → c < q → IsSum q a b c ↔ (c ≡ plus q a b) }
    ensures product { (q a b c : ℕ) → IsOrder q → a < q → b < q → c < q → IsProduct q a b c ↔ (c ≡ times q a b) }
{}

/// The order is strict, and total on representations of one shape.
pub fn order_is_strict_and_total()
    ensures irreflexive { (M : Rep) → ¬ (rep_cmp M M ≡ less) }
    ensures transitive { (M N L : Rep) → rep_cmp M N ≡ less → rep_cmp N L ≡ less → rep_cmp M L ≡ less }
    ensures reversed { (M N : Rep) → rep_cmp N M ≡ ordering_reverse (rep_cmp M N) }
    ensures total { (M N : Rep) → shape M ≡ shape N → rep_cmp M N ≡ equal → M ≡ N }
{}

/// A level is one list, and so is what is listed of it.
pub fn one_level()
    ensures level { (q : Family) (n : ℕ) (forms others : List Rep) → IsLevel q n forms → IsLevel q n others → forms ≡ others }
    ensures listed { (q : Family) (n : ℕ) (filters : Filters) (forms others : List Rep) →
        IsListed q n filters forms → IsListed q n filters others → forms ≡ others }
{}

/// There is one number of tries.
pub fn one_number_of_tries()
    ensures { (q : Family) (n tried other : ℕ) → IsCount (IsTry q n) tried → IsCount (IsTry q n) other → tried ≡ other }
{}

/// What is given is one matroid.
pub fn one_matroid()
    ensures { (given : Given) (N other : Matroid) → IsGivenBy given N → IsGivenBy given other → N ≡ other }
{}

/// The independent sets of columns are those of a matroid (Oxley, sections 1.1 and 1.2). The empty set is one, and so is
/// each part of one. Of two, the smaller can take an element of the larger. Two of one size exchange elements, so bases
/// do, which are those of the greatest size. One that no column in S can be added to has the greatest size within S.
/// An independent set has at most as many columns as there are rows, and a square matrix of independent columns has an
/// inverse.
pub fn independence_of_columns()
    ensures empty { (q r n : ℕ) (A : Matrix) → IsIndependent q r n A (λ j. false) }
    ensures parts { (q r n : ℕ) (A : Matrix) (I J : ℕ → Bool) → IsIndependent q r n A J →
        ((j : ℕ) → j < n → I j ≡ true → J j ≡ true) → IsIndependent q r n A I }
    ensures augmentation { (q r n : ℕ) (A : Matrix) (I J : ℕ → Bool) → IsField q →
        ((i j : ℕ) → i < r → j < n → A i j < q) →
        IsIndependent q r n A I → IsIndependent q r n A J → size_below n I < size_below n J →
        (e : ℕ) × (e < n) × (J e ≡ true) × (I e ≡ false) × IsIndependent q r n A (λ j. (j == e) || I j) }
    ensures exchange { (q r n k : ℕ) (A : Matrix) (S B D : ℕ → Bool) (x : ℕ) → IsField q →
        ((i j : ℕ) → i < r → j < n → A i j < q) →
        IsIndependentPart q r n A S k B → IsIndependentPart q r n A S k D → x < n → B x ≡ true → D x ≡ false →
        (y : ℕ) × (y < n) × (D y ≡ true) × (B y ≡ false) ×
        IsIndependentPart q r n A S k (λ j. (j == y) || (not (j == x) && B j)) }
    ensures greatest { (q r n k m : ℕ) (A : Matrix) (S B : ℕ → Bool) → IsField q →
        ((i j : ℕ) → i < r → j < n → A i j < q) →
        IsRankOf q r n A S k → IsIndependentPart q r n A S m B →
        ((e : ℕ) → e < n → S e ≡ true → B e ≡ false → ¬ (IsIndependent q r n A (λ j. (j == e) || B j))) → m ≡ k }
    ensures at_most_rows { (q r n : ℕ) (A : Matrix) (S : ℕ → Bool) → IsField q →
        ((i j : ℕ) → i < r → j < n → A i j < q) → IsIndependent q r n A S → size_below n S ≤ r }
    ensures inverse { (q n : ℕ) (A : Matrix) → IsField q → ((i j : ℕ) → i < n → j < n → A i j < q) →
        IsIndependent q n n A (λ j. true) →
        (H : Matrix) × ((i j : ℕ) → i < n → j < n → H i j < q) × AreInverse q n A H }
{}

/// Each set of columns has one rank, and a product with an invertible matrix on the left keeps it.
pub fn ranks()
    ensures exists { (q r n : ℕ) (A : Matrix) (S : ℕ → Bool) → IsField q → ((i j : ℕ) → i < r → j < n → A i j < q) →
        (k : ℕ) × IsRankOf q r n A S k }
    ensures unique { (q r n : ℕ) (A : Matrix) (S : ℕ → Bool) (k l : ℕ) →
        IsRankOf q r n A S k → IsRankOf q r n A S l → k ≡ l }
    ensures kept { (q r n : ℕ) (G H A : Matrix) (S : ℕ → Bool) (k : ℕ) → IsField q → AreInverse q r G H →
        IsRankOf q r n A S k ↔ IsRankOf q r n (matrix_product q r G A) S k }
{}

/// The identity is a move, and so are a move after a move and the inverse of a move.
pub fn moves()
    ensures identity { (mode : Mode) (S : Shape) → ((f : ℕ) → f < length S.factors → IsOrder (slice_index S.factors f)) →
        (m : Move) × IsMove mode S m × ((M : Rep) → shape M ≡ S → IsShaped M → TakesTo M m M) }
    ensures composite { (mode : Mode) (S : Shape) (a b : Move) →
        ((f : ℕ) → f < length S.factors → IsOrder (slice_index S.factors f)) → IsMove mode S a → IsMove mode S b →
        (c : Move) × IsMove mode S c ×
        ((M N L : Rep) → shape M ≡ S → IsShaped M → TakesTo M a N → TakesTo N b L → TakesTo M c L) }
    ensures inverse { (mode : Mode) (S : Shape) (a : Move) →
        ((f : ℕ) → f < length S.factors → IsOrder (slice_index S.factors f)) → IsMove mode S a →
        (c : Move) × IsMove mode S c × ((M N : Rep) → shape M ≡ S → IsShaped M → TakesTo M a N → TakesTo N c M) }
{}

/// Equivalence is reflexive, symmetric and transitive.
pub fn equivalence()
    ensures reflexive { (mode : Mode) (M : Rep) → IsShaped M → AreEquivalent mode M M }
    ensures symmetric { (mode : Mode) (M N : Rep) → AreEquivalent mode M N → AreEquivalent mode N M }
    ensures transitive { (mode : Mode) (M N L : Rep) →
        AreEquivalent mode M N → AreEquivalent mode N L → AreEquivalent mode M L }
{}

/// A move carries the bases of each factor by its relabelling. Of two equivalent representations both agree, or neither,
/// and both are simple, or neither.
pub fn moves_carry_bases()
    ensures bases { (mode : Mode) (M N : Rep) (m : Move) → IsShaped M → IsMove mode (shape M) m → TakesTo M m N →
        (f : ℕ) → f < count M → (S : ℕ → Bool) → IsBasis M f S ↔ IsBasis N f (λ j. S (m.label j)) }
    ensures agreement { (mode : Mode) (M N : Rep) → AreEquivalent mode M N → Agrees M ↔ Agrees N }
    ensures simplicity { (mode : Mode) (M N : Rep) → AreEquivalent mode M N → IsSimple M ↔ IsSimple N }
{}

/// A class of equivalent representations has at most one form.
pub fn one_form()
    ensures { (mode : Mode) (M N : Rep) → IsForm mode M → IsForm mode N → AreEquivalent mode M N → M ≡ N }
{}

/// Every standard representation equivalent to one is made of an ordered basis of it, row scalars, column scalars and an
/// order of the columns. Let a move take M of rank r to a standard N. In each factor the columns label 0, .., label (r - 1)
/// of M, which are those whose place is below r, are a basis of M, each column of M has coordinates in this ordered basis,
/// and the entry of N at row i of column k is the scalar of k times the inverse of the scalar of i times the raised
/// coordinate i of column label k.
pub fn standard_members()
    ensures basis { (mode : Mode) (M N : Rep) (m : Move) → IsShaped M → IsStandard N → IsMove mode (shape M) m →
        TakesTo M m N → (f : ℕ) → f < count M → IsBasis M f (λ j. nat_lt (m.place j) M.rank) }
    ensures coordinates { (mode : Mode) (M N : Rep) (m : Move) → IsShaped M → IsStandard N → IsMove mode (shape M) m →
        TakesTo M m N → (f : ℕ) → f < count M → (k : ℕ) → k < size M →
        (c : ℕ → ℕ) × ((i : ℕ) → i < M.rank → c i < order M f) × ((i : ℕ) → i < M.rank →
        combination (order M f) M.rank (λ i l. matrix M f i (m.label l)) c i ≡ matrix M f i (m.label k)) }
    ensures entries { (mode : Mode) (M N : Rep) (m : Move) → IsShaped M → IsStandard N → IsMove mode (shape M) m →
        TakesTo M m N → (f : ℕ) → f < count M → (k : ℕ) → k < size M → (c : ℕ → ℕ) →
        ((i : ℕ) → i < M.rank →
        combination (order M f) M.rank (λ i l. matrix M f i (m.label l)) c i ≡ matrix M f i (m.label k)) →
        (i : ℕ) → i < M.rank →
        matrix N f i k ≡ times (order M f) (m.scalar f k)
        (times (order M f) (inverse (order M f) (m.scalar f i)) (raised (order M f) (m.power f) (c i))) }
{}

/// Each order of the columns of a representation M, of at least one factor, whose first rank columns are a basis in every
/// factor is that of a move that takes M to a standard representation, with any nonzero scalars and any powers of the
/// mode. So M is equivalent to a standard one if its factors agree.
pub fn standard_exists()
    ensures each { (mode : Mode) (M : Rep) (label place : ℕ → ℕ) (scalar : ℕ → ℕ → ℕ) (power : ℕ → ℕ) → IsShaped M →
        0 < count M → ArePermutation (size M) label place →
        ((f : ℕ) → f < count M → IsBasis M f (λ j. nat_lt (place j) M.rank)) →
        ((f j : ℕ) → f < count M → j < size M → scalar f j < order M f) →
        ((f j : ℕ) → f < count M → j < size M → scalar f j ≢ 0) →
        ((f : ℕ) → f < count M → power f < degree (order M f)) →
        ((f : ℕ) → f < count M → AllowsPower mode (power f)) →
        (N : Rep) × (m : Move) × IsStandard N × IsMove mode (shape M) m × TakesTo M m N ×
        (m.label ≡ label) × (m.scalar ≡ scalar) × (m.power ≡ power) }
    ensures some { (mode : Mode) (M : Rep) → IsShaped M → 0 < count M → Agrees M →
        (N : Rep) × IsStandard N × AreEquivalent mode M N }
{}

/// Where the last column of a form of size above the rank is left out, a form is left, in each mode. The last column of a
/// simple form whose factors agree is normalised. A member of which the last column is left out stays one, where a basis
/// is left. So each form of a level of size above the rank comes from a try: a form of the level before and its last column.
pub fn prefix()
    ensures form { (mode : Mode) (P : Rep) (v : List ℕ) → P.rank ≤ size P → IsForm mode (followed_by P v) → IsForm mode P }
    ensures normalised { (mode : Mode) (P : Rep) (v : List ℕ) → IsForm mode (followed_by P v) →
        IsSimple (followed_by P v) → IsNormalised P.factors P.rank v }
    ensures member { (q : Family) (n : ℕ) (P : Rep) (v : List ℕ) (S : ℕ → Bool) → IsBasis P 0 S →
        IsMember q n (followed_by P v) → IsMember q (size P) P }
    ensures tries { (q : Family) (n : ℕ) (P : Rep) (v : List ℕ) → q.rank < n →
        IsLevelForm q n (followed_by P v) → IsTry q n (P, v) }
{}
