ghost use Rattle.std.specs.Prelude.{◌≡◌, ◌==◌, ◌||◌, ◌<◌, ◌*◌, ◌^◌, ◌↔◌, ℕ, false, length, IsTrue};
ghost use Rattle.std.specs.List.{All};
ghost use Rattle.matroid_theory.specs.Rep.{size};
ghost use Rattle.matroid_theory.specs.Matroid.{members, IsBasis};
ghost use Rattle.matroid_theory.specs.Tables.{has};
ghost use Rattle.bases.specs.FactorColumns.{IsFactorOf};
ghost use Rattle.minor_test.specs.Tables.{HasBases, HasMasks};

use bases::FactorColumns;
use column_sets::set_count;
use field_tables::Mask;
use product_rep::Rep;

/// A set of masks, by a bit for each of those that so many words have room for.
#[derive(Drop)]
pub struct Table<const W: usize> {
    pub words: [u64; W],
}

/// A set of sets of at most 16 columns.
pub type FullTable = Table<1024>;

/// A set of sets of at most 10 elements.
pub type SmallTable = Table<16>;

impl<const W: usize> Table<W> {
    /// No mask.
    pub fn new() -> Table<W>
        ensures { (X : ℕ) → has result.words X ≡ false }
    {
        Table { words: [0; W] }
    }

    /// Puts a mask into the set.
    pub fn add(&mut self, set: Mask)
        requires { set < 64 * W }
        ensures { (X : ℕ) → has self.new.words X ≡ (has self.old.words X || (set == X)) }
    {
        let word = usize::from(set / 64);
        self.words[word] |= 1 << (set % 64);
    }

    /// Whether a mask is in the set.
    pub fn contains(&self, set: Mask) -> bool
        requires { set < 64 * W }
        ensures { result ≡ has self.now.words set }
    {
        let word = usize::from(set / 64);
        self.words[word] >> (set % 64) & 1 == 1
    }
}

/// The masks of the bases of the first factor, whose columns these are.
pub fn bases_of(rep: &Rep, first: &FactorColumns) -> FullTable
    requires { IsFactorOf rep.now 0 first.now.field first.now.columns.items }
    ensures { HasBases rep.now result.words }
{
    rep.laws();
    let mut table = FullTable::new();
    for set in 0..set_count(rep.size()) {
        let set = set as Mask;
        if is_basis(rep, first, set) {
            table.add(set);
        }
    }
    table
}

/// Whether the set, which lies within the size, is a basis of the first factor, whose columns these are.
fn is_basis(rep: &Rep, first: &FactorColumns, set: Mask) -> bool
    requires first { IsFactorOf rep.now 0 first.now.field first.now.columns.items }
    requires set { set < 2 ^ size rep.now }
    ensures { IsTrue result ↔ IsBasis rep.now 0 (members set) }
{
    rep.laws();
    set.count_ones() as usize == rep.rank() && first.is_independent(set)
}

/// The masks in a list of sets of at most 10 elements.
pub fn table_of(masks: &[Mask]) -> SmallTable
    requires { All (λ X. X < 1024) masks.now }
    ensures { HasMasks masks.now result.words }
{
    let mut table = SmallTable::new();
    for mask in masks {
        table.add(*mask);
    }
    table
}
