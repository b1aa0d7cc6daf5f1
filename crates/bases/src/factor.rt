//! One factor of a representation.
ghost use Rattle.std.specs.Prelude.{◌≡◌, ◌<◌, ◌≤◌, ◌↔◌, length, IsTrue, IsFalse};
ghost use Rattle.matroid_theory.specs.Rep.{size, count, column_of, KeepsLimits};
ghost use Rattle.matroid_theory.specs.Matroid.{members};
ghost use Rattle.column_sets.specs.Picked.{ArePicked, IsIndependentSet};
ghost use Rattle.elimination.specs.Columns.{height, AreColumns};
ghost use Rattle.bases.specs.FactorColumns.{IsFactorOf};

use arrayvec::ArrayVec;
use column_sets::independent_in;
use field_tables::{Column, Field, Mask};
use product_rep::Rep;

/// The field and the columns of one factor, taken out of a representation.
#[derive(Drop)]
pub struct FactorColumns {
    field: Field,
    columns: ArrayVec<Column, 16>,
    ghost few: { length columns.items ≤ 16 },
    ghost codes: { AreColumns field (height columns.items) columns.items },
}

impl FactorColumns {
    /// The field and the columns of the factor, numbered from 0.
    pub fn of(rep: &Rep, factor: usize) -> FactorColumns
        requires { factor < count rep.now }
        ensures { IsFactorOf rep.now factor result.field result.columns.items }
    {
        rep.laws();
        let mut columns = ArrayVec::new();
        for j in 0..rep.size() {
            columns.push(rep.factor_column(factor, j));
        }
        FactorColumns {
            field: rep.factors().field(factor),
            columns,
        }
    }

    /// The field.
    pub fn field(&self) -> Field
        ensures { result ≡ self.now.field }
    {
        self.field
    }

    /// The columns, in their order.
    pub fn columns(&self) -> &[Column]
        ensures columns { result.now ≡ self.now.columns.items }
        ensures few { length result.now ≤ 16 }
        ensures codes { AreColumns self.now.field (height result.now) result.now }
    {
        self.columns.as_slice()
    }

    /// Whether the columns in the set are independent. Numbers beyond the last column don't count.
    pub fn is_independent(&self, set: Mask) -> bool
        ensures { IsTrue result ↔ IsIndependentSet self.now.field self.now.columns.items (members set) }
    {
        independent_in(self.field, self.columns(), set)
    }

    /// Whether the set is independent in one of the two factors alone.
    pub fn differs(&self, other: &FactorColumns, set: Mask) -> bool
        ensures { IsFalse result ↔ (IsIndependentSet self.now.field self.now.columns.items (members set) ↔
            IsIndependentSet other.now.field other.now.columns.items (members set)) }
    {
        self.is_independent(set) != other.is_independent(set)
    }
}

/// The columns of one factor that are in the set, in their order.
pub fn picked(rep: &Rep, factor: usize, set: Mask) -> ArrayVec<Column, 16>
    requires { factor < count rep.now }
    ensures picked { ArePicked (column_of rep.now factor) (size rep.now) (members set) result.items }
    ensures is_rep { KeepsLimits rep.now }
{
    rep.laws();
    column_sets::picked(FactorColumns::of(rep, factor).columns(), set)
}
