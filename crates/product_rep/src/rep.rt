ghost use Rattle.std.specs.Prelude.{◌≡◌, ◌<◌, ◌≤◌, ◌+◌, ◌*◌, ℕ, [], ◌++◌, Some, length, remove, replicate, slice_get, slice_index};
ghost use Rattle.matroid_theory.specs.Rep.{Rep as Matrices, size, count, shape, column_of, KeepsLimits, IsStandard, IsProductColumn};
ghost use Rattle.matroid_theory.specs.Level.{followed_by};
ghost use Rattle.matroid_theory.specs.Matrix.{unit};
ghost use Rattle.matroid_theory.specs.Order.{rep_cmp};

use crate::Factors;
use arrayvec::ArrayVec;
use field_tables::Column;
use small_lists::list_of;
use std::cmp::Ordering;
use std::marker::Model;

/// One column of all factors: its codes row by row, and factor by factor within a row; at most 18.
pub type ProductColumn = ArrayVec<u8, 18>;

/// A matrix over each factor, all of one rank and size: the rank is 1 to 6, the size at most 16, and each code below its
/// field's order. Contracts see its factors, its rank and the list of its columns.
#[derive(Drop)]
pub struct Rep {
    factors: Factors,
    rank: u8,
    size: u8,
    codes: ArrayVec<u8, 288>,
}

impl Model for Rep {
    ghost use Rattle.matroid_theory.specs.Rep.{Rep as Matrices};
    ghost use Rattle.product_rep.specs.Pieces.{matrices, KeepsRep};

    ghost Value = { Matrices };

    ghost view = { matrices };

    ghost invariant = { KeepsRep };
}

impl Rep {
    /// The representation with no column.
    pub fn empty(factors: Factors, rank: u8) -> Rep
        requires low { 1 ≤ rank }
        requires high { rank ≤ 6 }
        ensures { result ≡ record { factors = factors; rank = rank; columns = [] } }
    {
        factors.laws();
        Rep {
            factors,
            rank,
            size: 0,
            codes: ArrayVec::new(),
        }
    }

    /// The representation whose columns are the unit columns in order, in every factor.
    pub fn unit(factors: Factors, rank: u8) -> Rep
        requires low { 1 ≤ rank }
        requires high { rank ≤ 6 }
        ensures shape { shape result ≡ record { factors = factors; rank = rank; size = rank } }
        ensures standard { IsStandard result }
    {
        let count = factors.count();
        let mut rep = Rep::empty(factors, rank);
        for j in 0..rank {
            rep.push_column(&unit_column(count, rank, j));
        }
        rep
    }

    /// What the type keeps, for the proofs of callers: one to three fields, rank 1 to 6, at most 16 columns, and codes below the
    /// orders.
    pub fn laws(&self)
        ensures { KeepsLimits self.now }
    {
        let _codes = &self.codes;
    }

    /// The number of columns, at most 16.
    pub fn size(&self) -> usize
        ensures value { result ≡ size self.now }
        ensures is_rep { KeepsLimits self.now }
    {
        usize::from(self.size)
    }

    /// The number of rows of each matrix, from 1 to 6.
    pub fn rank(&self) -> usize
        ensures { result ≡ self.now.rank }
    {
        usize::from(self.rank)
    }

    /// The factors.
    pub fn factors(&self) -> Factors
        ensures { result ≡ self.now.factors }
    {
        self.factors.copy()
    }

    /// Column `j` of all factors.
    pub fn column(&self, j: usize) -> ProductColumn
        requires { j < size self.now }
        ensures { slice_get self.now.columns j ≡ Some result.items }
    {
        let width = usize::from(self.rank) * self.factors.count();
        let rest = &self.codes.as_slice()[j * width..];
        list_of(&rest[..width])
    }

    /// Column `j` of one factor.
    pub fn factor_column(&self, factor: usize, j: usize) -> Column
        requires factor { factor < count self.now }
        requires column { j < size self.now }
        ensures { result.items ≡ column_of self.now factor j }
    {
        let count = self.factors.count();
        let rank = usize::from(self.rank);
        let mut column = ArrayVec::new();
        for i in 0..rank {
            column.push(self.codes[(j * rank + i) * count + factor]);
        }
        column
    }

    /// Adds a column at the end.
    pub fn push_column(&mut self, column: &ProductColumn)
        requires room { size self.old < 16 }
        requires column { IsProductColumn self.old.factors self.old.rank column.now.items }
        ensures { self.new ≡ followed_by self.old column.now.items }
    {
        push_codes(&mut self.codes, column.as_slice());
        self.size += 1;
    }

    /// The same representation.
    pub fn copy(&self) -> Rep
        ensures { result ≡ self.now }
    {
        Rep {
            factors: self.factors.copy(),
            rank: self.rank,
            size: self.size,
            codes: list_of(self.codes.as_slice()),
        }
    }

    /// The representation without column `j`; the other columns keep their order.
    pub fn without(&self, j: usize) -> Rep
        requires { j < size self.now }
        ensures { result ≡ record self.now { columns = remove self.now.columns j } }
    {
        let width = usize::from(self.rank) * self.factors.count();
        let all = self.codes.as_slice();
        let mut codes = ArrayVec::new();
        push_codes(&mut codes, &all[..j * width]);
        push_codes(&mut codes, &all[(j + 1) * width..]);
        Rep {
            factors: self.factors.copy(),
            rank: self.rank,
            size: self.size - 1,
            codes,
        }
    }
}

/// The order of two representations of one shape: column by column, in a column from row 0, in a row factor by factor, and by
/// code.
pub fn compare(a: &Rep, b: &Rep) -> Ordering
    requires { shape a.now ≡ shape b.now }
    ensures { result ≡ rep_cmp a.now b.now }
{
    a.codes.as_slice().cmp(b.codes.as_slice())
}

/// Column `j` of the identity matrix, in every factor.
fn unit_column(count: usize, rank: u8, j: u8) -> ProductColumn
    requires count { count ≤ 3 }
    requires rank { rank ≤ 6 }
    ensures rows { length result.items ≡ rank * count }
    ensures codes { (i f : ℕ) → i < rank → f < count → slice_index result.items (i * count + f) ≡ unit i j }
{
    let mut column = ArrayVec::new();
    for i in 0..rank {
        push_copies(&mut column, u8::from(i == j), count);
    }
    column
}

/// Adds the code `count` times.
fn push_copies(column: &mut ProductColumn, code: u8, count: usize)
    requires { length column.old.items + count ≤ 18 }
    ensures { column.new.items ≡ column.old.items ++ replicate count code }
{
    for _ in 0..count {
        column.push(code);
    }
}

/// Adds these codes at the end, in one go.
fn push_codes(codes: &mut ArrayVec<u8, 288>, more: &[u8])
    requires { length codes.old.items + length more.now ≤ 288 }
    ensures { codes.new.items ≡ codes.old.items ++ more.now }
{
    if codes.try_extend_from_slice(more).is_err() {
        unreachable!();
    }
}
