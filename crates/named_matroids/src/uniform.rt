//! Uniform matroids.
ghost use Rattle.std.specs.Prelude.{◌≤◌, ◌<◌};
ghost use Rattle.matroid_theory.specs.Given.{AllSets, IsGivenBy};

use crate::minor::Minor;
use column_sets::few_sets_of_size;

/// The uniform matroid: its bases are all sets of rank many elements.
pub fn uniform(rank: u8, size: u8) -> Minor
    requires rank { rank ≤ size }
    requires some { 0 < size }
    requires few { size ≤ 10 }
    ensures { IsGivenBy (AllSets rank size) result }
{
    let bases = few_sets_of_size(usize::from(size), usize::from(rank), |_| true);
    Minor::of(rank, size, bases)
}
