// A representation in which minors are sought, made ready.
ghost use Rattle.std.specs.Prelude.{◌≡◌};
ghost use Rattle.matroid_theory.specs.Rep.{size, KeepsLimits};
ghost use Rattle.bases.specs.FactorColumns.{IsFactorOf};
ghost use Rattle.minor_test.specs.Tables.{HasBases};

use crate::table::{FullTable, bases_of};
use bases::FactorColumns;
use product_rep::Rep;
use std::marker::Model;

/// A representation in which minors are sought, with the columns of its first factor and the table of their bases, so that these
/// are made once for many minors. Contracts see the representation.
#[derive(Drop)]
pub struct Whole<'a> {
    rep: &'a Rep,
    columns: FactorColumns,
    table: FullTable,
}

impl<'a> Model for Whole<'a> {
    ghost use Rattle.matroid_theory.specs.Rep.{Rep as Matrices};
    ghost use Rattle.bases.specs.FactorColumns.{IsFactorOf};
    ghost use Rattle.minor_test.specs.Tables.{HasBases};

    ghost Value = { Matrices };

    ghost view = { λ s. s.rep.now };

    ghost invariant = { λ s. HasBases s.rep.now s.table.words × IsFactorOf s.rep.now 0 s.columns.field s.columns.columns.items };
}

impl<'a> Whole<'a> {
    /// The representation, made ready. It takes no memory.
    pub fn of(rep: &'a Rep) -> Whole<'a>
        ensures { result ≡ rep.now }
    {
        rep.laws();
        let columns = FactorColumns::of(rep, 0);
        let table = bases_of(rep, &columns);
        Whole {
            rep,
            columns,
            table,
        }
    }

    /// The representation.
    pub fn rep(&self) -> &Rep
        ensures { result.now ≡ self.now }
    {
        self.rep
    }

    /// What holds of each representation.
    pub(crate) fn laws(&self)
        ensures { KeepsLimits self.now }
    {
        self.rep.laws();
    }

    /// The number of its columns.
    pub(crate) fn size(&self) -> usize
        ensures { result ≡ size self.now }
    {
        self.rep.size()
    }

    /// Its rank.
    pub(crate) fn rank(&self) -> usize
        ensures { result ≡ self.now.rank }
    {
        self.rep.rank()
    }

    /// The columns of its first factor.
    pub(crate) fn columns(&self) -> &FactorColumns
        ensures { IsFactorOf self.now 0 result.now.field result.now.columns.items }
    {
        &self.columns
    }

    /// The table of the bases of its first factor.
    pub(crate) fn table(&self) -> &FullTable
        ensures { HasBases self.now result.now.words }
    {
        &self.table
    }
}
