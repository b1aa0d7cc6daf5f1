ghost use Rattle.std.specs.Prelude.{◌≡◌, ◌⊎◌, ◌↔◌, ℕ, [], IsTrue};
ghost use Rattle.std.specs.List.{Contains};
ghost use Rattle.std.specs.List.Sorted.{IsStrictlyIncreasing};
ghost use Rattle.matroid_theory.specs.Minor.{AreBases};

use bases::is_basis;
use column_sets::set_count;
use field_tables::Mask;
use product_rep::Rep;
use std::marker::Model;

/// A set of masks, by a bit for each of the 65,536. Contracts see the rising list of its masks.
#[derive(Drop)]
pub struct Table {
    words: [u64; 1024],
}

impl Model for Table {
    ghost use Rattle.std.specs.Prelude.{ℕ, List};
    ghost use Rattle.represent.specs.Tables.{masks_below};

    ghost Value = { List ℕ };

    ghost view = { λ table. masks_below 65536 table.words };
}

impl Table {
    /// No mask.
    pub fn new() -> Table
        ensures { result ≡ [] }
    {
        Table { words: [0; 1024] }
    }

    /// What the type keeps, for the proofs of callers: the masks rise.
    pub fn laws(&self)
        ensures { IsStrictlyIncreasing self.now }
    {
        let _words = &self.words;
    }

    /// Puts a mask into the set.
    pub fn add(&mut self, set: Mask)
        ensures { (X : ℕ) → Contains self.new X ↔ (Contains self.old X ⊎ (set ≡ X)) }
    {
        let word = usize::from(set / 64);
        self.words[word] |= 1 << (set % 64);
    }

    /// Whether a mask is in the set.
    pub fn contains(&self, set: Mask) -> bool
        ensures { IsTrue result ↔ Contains self.now set }
    {
        let word = usize::from(set / 64);
        self.words[word] >> (set % 64) & 1 == 1
    }
}

/// The bases of the first factor.
pub fn bases_of(rep: &Rep) -> Table
    ensures { AreBases rep.now result }
{
    rep.laws();
    let mut table = Table::new();
    for set in 0..set_count(rep.size()) {
        let set = set as Mask;
        if is_basis(rep, set) {
            table.add(set);
        }
    }
    table.laws();
    table
}

/// The masks in a rising list.
pub fn table_of(masks: &[Mask]) -> Table
    requires { IsStrictlyIncreasing masks.now }
    ensures { result ≡ masks.now }
{
    let mut table = Table::new();
    for mask in masks {
        table.add(*mask);
    }
    table.laws();
    table
}
