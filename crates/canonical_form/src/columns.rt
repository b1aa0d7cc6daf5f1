// Lists of columns.
ghost use Rattle.std.specs.Prelude.{◌≡◌, ◌<◌, ◌≤◌, [], ◌∷◌, ◌++◌, length};
ghost use Rattle.std.specs.List.Sorted.{IsPermutation, IsSorted};
ghost use Rattle.std.specs.Cmp.Lexicographic.{slice_cmp};
ghost use Rattle.std.specs.Ordering.{nat_cmp};
ghost use Rattle.canonical_form.specs.Search.{columns_cmp};
ghost use Rattle.small_lists.specs.Lists.{lists};

use arrayvec::ArrayVec;
use product_rep::ProductColumn;
use std::cmp::Ordering;
use std::marker::Model;

/// The numbers of at most 6 columns, in order.
pub type ColumnNumbers = ArrayVec<u8, 6>;

/// At most 16 columns. Contracts see the list of their codes.
#[derive(Drop)]
pub struct ColumnList {
    columns: ArrayVec<ProductColumn, 16>,
}

impl Model for ColumnList {
    ghost use Rattle.std.specs.Prelude.{ℕ, List};
    ghost use Rattle.small_lists.specs.Lists.{lists};

    ghost Value = { List (List ℕ) };

    ghost view = { λ s. lists s.columns.items };
}

impl ColumnList {
    /// No column.
    pub fn new() -> ColumnList
        ensures { result ≡ [] }
    {
        ColumnList {
            columns: ArrayVec::new(),
        }
    }

    /// Adds a column at the end.
    pub fn push(&mut self, column: ProductColumn)
        requires { length self.old < 16 }
        ensures { self.new ≡ self.old ++ column.items ∷ [] }
    {
        self.columns.push(column);
    }

    /// The columns, in order.
    pub fn as_slice(&self) -> &[ProductColumn]
        ensures columns { lists result.now ≡ self.now }
        ensures few { length result.now ≤ 16 }
    {
        self.columns.as_slice()
    }

    /// Puts the columns in rising order.
    pub fn sort(&mut self)
        ensures permutation { IsPermutation self.old self.new }
        ensures rising { IsSorted (slice_cmp nat_cmp) self.new }
    {
        self.columns.as_mut_slice().sort_unstable();
    }

    /// The order of two lists, column by column, and in a column code by code.
    pub fn compare(&self, other: &ColumnList) -> Ordering
        ensures { result ≡ columns_cmp self.now other.now }
    {
        self.columns.cmp(&other.columns)
    }
}
