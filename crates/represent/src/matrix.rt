//! The matrix of the entries that are filled in.
ghost use Rattle.std.specs.Prelude.{◌≡◌, ◌<◌, ◌≤◌, [], ◌∷◌, map};
ghost use Rattle.std.specs.List.{range_with_len};
ghost use Rattle.matroid_theory.specs.Field.{IsOrder};
ghost use Rattle.represent.specs.Sought.{matroid_of, IsSought};
ghost use Rattle.represent.specs.Filled.{entry, filled, AreCodes};

use crate::target::{Codes, Target};
use product_rep::{Factors, ProductColumn, Rep};

/// The standard matrix with these entries, and 0 after them.
pub(crate) fn filled(target: &Target, codes: &Codes) -> Rep
    requires sought { IsSought target.now.order (matroid_of target.now) }
    requires codes { AreCodes target.now.order (matroid_of target.now) codes.now.items }
    ensures { result ≡ filled target.now.order (matroid_of target.now) codes.now.items }
{
    let mut rep = Rep::empty(one_factor(target.order), target.rank);
    for j in 0..target.size {
        rep.push_column(&column(target.rank, codes, j));
    }
    rep
}

/// The field of this order as the only factor.
fn one_factor(order: u8) -> Factors
    requires { IsOrder order }
    ensures { result ≡ order ∷ [] }
{
    match Factors::of(&[order]) {
        Some(factors) => factors,
        None => unreachable!(),
    }
}

/// Column `j` of the matrix.
fn column(rank: u8, codes: &Codes, j: u8) -> ProductColumn
    requires { rank ≤ 6 }
    ensures { result.items ≡ map (λ i. entry rank codes.now.items i j) (range_with_len 0 rank) }
{
    let mut column = ProductColumn::new();
    for i in 0..rank {
        column.push(entry(rank, codes, i, j));
    }
    column
}

/// The entry at row `i` of column `j`, which is 0 where it isn't filled in yet.
fn entry(rank: u8, codes: &Codes, i: u8, j: u8) -> u8
    ensures { result ≡ entry rank codes.now.items i j }
{
    if j < rank {
        return u8::from(i == j);
    }
    let place = usize::from(j - rank) * usize::from(rank) + usize::from(i);
    codes.as_slice().get(place).copied().unwrap_or(0)
}
