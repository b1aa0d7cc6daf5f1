//! A matroid of few elements.
ghost use Rattle.std.specs.Prelude.{◌≡◌, ◌-◌, ◌<◌, ◌^◌, ◌↔◌, IsTrue};
ghost use Rattle.std.specs.List.{Contains};
ghost use Rattle.named_matroids.specs.SmallMatroids.{IsSmallMatroid, IsDual};

use column_sets::{FewSets, complement, few_sets_of_size};
use field_tables::Mask;
use small_lists::list_of;
use std::marker::Model;

/// A matroid of 1 to 10 elements by its bases. Contracts see its rank, its size and the rising list of the masks of its
/// bases.
#[derive(Drop)]
pub struct Minor {
    rank: u8,
    size: u8,
    bases: FewSets,
}

impl Model for Minor {
    ghost use Rattle.matroid_theory.specs.Minor.{Matroid};
    ghost use Rattle.named_matroids.specs.SmallMatroids.{IsSmallMatroid};

    ghost Value = { Matroid };

    ghost view = { λ s. record { rank = s.rank; size = s.size; bases = s.bases.items } };

    ghost invariant = { λ s. IsSmallMatroid (record { rank = s.rank; size = s.size; bases = s.bases.items }) };
}

impl Minor {
    /// The matroid of these bases.
    pub(crate) fn of(rank: u8, size: u8, bases: FewSets) -> Minor
        requires { IsSmallMatroid (record { rank = rank; size = size; bases = bases.items }) }
        ensures { result ≡ record { rank = rank; size = size; bases = bases.items } }
    {
        Minor { rank, size, bases }
    }

    /// The rank, from 0 to the size.
    pub fn rank(&self) -> usize
        ensures { result ≡ self.now.rank }
    {
        self.rank as usize
    }

    /// The number of elements, from 1 to 10.
    pub fn size(&self) -> usize
        ensures value { result ≡ self.now.size }
        ensures is_small { IsSmallMatroid self.now }
    {
        self.size as usize
    }

    /// The bases, each below 2 to the size, from the lowest mask up. There is at least one.
    pub fn bases(&self) -> &[Mask]
        ensures { result.now ≡ self.now.bases }
    {
        self.bases.as_slice()
    }

    /// What the type keeps, for the proofs of callers: 1 to 10 elements, and rising masks of rank many of them, at least one.
    pub fn laws(&self)
        ensures { IsSmallMatroid self.now }
    {
        let _bases = &self.bases;
    }

    /// The same matroid.
    pub fn copy(&self) -> Minor
        ensures { result ≡ self.now }
    {
        Minor {
            rank: self.rank,
            size: self.size,
            bases: list_of(self.bases.as_slice()),
        }
    }

    /// The dual: its bases are the complements of the bases.
    pub(crate) fn dual(&self) -> Minor
        ensures { IsDual self.now result }
    {
        self.laws();
        let size = self.size();
        let rank = size - self.rank();
        let bases = few_sets_of_size(size, rank, |set| has_complement(self, set));
        Minor::of(rank as u8, size as u8, bases)
    }
}

/// Whether the complement of the set is a basis.
fn has_complement(matroid: &Minor, set: Mask) -> bool
    requires { set < 2 ^ matroid.now.size }
    ensures { IsTrue result ↔ Contains matroid.now.bases (2 ^ matroid.now.size - 1 - set) }
{
    matroid.laws();
    let rest = complement(matroid.size(), set);
    matroid.bases().contains(&rest)
}
