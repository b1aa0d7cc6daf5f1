// A matroid that is sought as a minor, made ready.
ghost use Rattle.std.specs.Prelude.{◌≡◌};
ghost use Rattle.named_matroids.specs.SmallMatroids.{IsSmallMatroid};
ghost use Rattle.minor_test.specs.Tables.{HasMasks};
ghost use Rattle.minor_test.specs.Twins.{AreTwinsOf};

use crate::table::{SmallTable, table_of};
use crate::twins::{Twins, twins_of};
use named_matroids::Minor;
use std::marker::Model;

/// A matroid that is sought as a minor, with the table of its bases and twins of its elements, so that these are made once for
/// many representations. Contracts see the matroid.
#[derive(Drop)]
pub struct Sought {
    minor: Minor,
    table: SmallTable,
    twins: Twins,
}

impl Model for Sought {
    ghost use Rattle.matroid_theory.specs.Minor.{Matroid};
    ghost use Rattle.minor_test.specs.Tables.{IsReady};

    ghost Value = { Matroid };

    ghost view = { λ s. s.minor };

    ghost invariant = { λ s. IsReady s.minor s.table.words s.twins.items };
}

impl Sought {
    /// The matroid, made ready.
    pub fn of(minor: &Minor) -> Sought
        ensures { result ≡ minor.now }
    {
        minor.laws();
        let table = table_of(minor.bases());
        let twins = twins_of(minor, &table);
        Sought {
            minor: minor.copy(),
            table,
            twins,
        }
    }

    /// The matroid.
    pub fn minor(&self) -> &Minor
        ensures { result.now ≡ self.now }
    {
        &self.minor
    }

    /// What holds of each matroid of few elements.
    pub(crate) fn laws(&self)
        ensures { IsSmallMatroid self.now }
    {
        self.minor.laws();
    }

    /// The number of its elements.
    pub(crate) fn size(&self) -> usize
        ensures { result ≡ self.now.size }
    {
        self.minor.size()
    }

    /// Its rank.
    pub(crate) fn rank(&self) -> usize
        ensures { result ≡ self.now.rank }
    {
        self.minor.rank()
    }

    /// The table of its bases.
    pub(crate) fn table(&self) -> &SmallTable
        ensures { HasMasks self.now.bases result.now.words }
    {
        &self.table
    }

    /// For each element a twin before it, if there is one.
    pub(crate) fn twins(&self) -> &Twins
        ensures { AreTwinsOf self.now result.now.items }
    {
        &self.twins
    }
}
