//! A matrix as a line writes it.
ghost use Rattle.std.specs.Prelude.{◌≡◌, ◌≤◌, length};
ghost use Rattle.small_lists.specs.Lists.{lists};

use arrayvec::ArrayVec;
use field_tables::Column;
use small_lists::list_of;
use std::marker::Model;

/// A matrix: the order of its field, and at most 10 columns of codes. That of a `MinorItem` has at least one column, and all
/// its columns have one length from 1 to 6, with codes below the order.
#[derive(Debug, Drop)]
pub struct MatrixText {
    order: u8,
    columns: ArrayVec<Column, 10>,
}

impl Model for MatrixText {
    ghost use Rattle.small_lists.specs.Lists.{lists};
    ghost use Rattle.named_matroids.specs.CodeMatrix.{CodeMatrix};

    ghost Value = { CodeMatrix };

    ghost view = { λ s. record { order = s.order; columns = lists s.columns.items } };
}

impl MatrixText {
    /// The matrix of these columns.
    pub(crate) fn of(order: u8, columns: &[Column]) -> MatrixText
        requires { length columns.now ≤ 10 }
        ensures { result ≡ record { order = order; columns = lists columns.now } }
    {
        MatrixText {
            order,
            columns: copied(columns),
        }
    }

    /// The order of the field.
    pub fn order(&self) -> u8
        ensures { result ≡ self.now.order }
    {
        self.order
    }

    /// The columns, in their order, each from the top row.
    pub fn columns(&self) -> &[Column]
        ensures columns { lists result.now ≡ self.now.columns }
        ensures few { length result.now ≤ 10 }
    {
        self.columns.as_slice()
    }

    /// The same matrix.
    pub(crate) fn copy(&self) -> MatrixText
        ensures { result ≡ self.now }
    {
        MatrixText::of(self.order(), self.columns())
    }
}

/// The same columns.
fn copied(columns: &[Column]) -> ArrayVec<Column, 10>
    requires { length columns.now ≤ 10 }
    ensures { lists result.items ≡ lists columns.now }
{
    let mut copies = ArrayVec::new();
    for column in columns {
        copies.push(list_of(column.as_slice()));
    }
    copies
}
