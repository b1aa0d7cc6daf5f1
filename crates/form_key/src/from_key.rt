// Unpacking.
ghost use Rattle.std.specs.Prelude.{◌≡◌, ◌+◌, ◌-◌, ◌*◌, ◌<◌, ◌≤◌, ◌↔◌, IsTrue, MatchOption, ℕ, length, slice_index};
ghost use Rattle.matroid_theory.specs.Rep.{Rep as Matrices, Shape, shape, IsShaped, IsStandard};
ghost use Rattle.form_key.specs.Packing.{IsPackedAs, later_codes};
ghost use Rattle.form_key.specs.Codes.{AreCodesOf};

use crate::codes::{pair_up, take_apart};
use arrayvec::ArrayVec;
use link_set::Key;
use product_rep::{Factors, ProductColumn, Rep};

/// The standard representation of this shape that has this key, or none where there is none.
pub fn unpack(factors: Factors, rank: u8, size: u8, key: &Key) -> Option<Rep>
    requires low { 1 ≤ rank }
    requires high { rank ≤ 6 }
    requires room { rank ≤ size }
    requires most { size ≤ 16 }
    ensures { let s : Shape = record { factors = factors; rank = rank; size = size } in
        MatchOption result ((M : Matrices) → ¬ (IsPackedAs s key.now M)) (IsPackedAs s key.now) }
{
    let width = usize::from(rank) * factors.count();
    let count = usize::from(size - rank) * width;
    let codes = take_apart(key.bytes(), count);
    let codes = codes.as_slice();
    // A key of another length, or with a half too many that isn't 0, is the packing of no codes.
    if pair_up(codes).as_slice() != key.bytes() {
        return None;
    }
    if !are_codes(&factors, codes) {
        return None;
    }
    Some(standard(factors, rank, usize::from(size - rank), codes))
}

/// Whether each code is below the order of its factor.
fn are_codes(factors: &Factors, codes: &[u8]) -> bool
    ensures { IsTrue result ↔ AreCodesOf factors.now codes.now }
{
    let count = factors.count();
    for (place, code) in codes.iter().enumerate() {
        if *code >= factors.field(place % count).order() {
            return false;
        }
    }
    true
}

/// The standard representation with these codes after the unit columns.
fn standard(factors: Factors, rank: u8, later: usize, codes: &[u8]) -> Rep
    requires low { 1 ≤ rank }
    requires high { rank ≤ 6 }
    requires most { rank + later ≤ 16 }
    requires count { length codes.now ≡ later * (rank * length factors) }
    requires are_codes { AreCodesOf factors codes.now }
    ensures shape { shape result ≡ record { factors = factors; rank = rank; size = rank + later } }
    ensures shaped { IsShaped result }
    ensures standard { IsStandard result }
    ensures codes { later_codes result ≡ codes.now }
{
    let width = usize::from(rank) * factors.count();
    let mut rep = Rep::unit(factors, rank);
    for j in 0..later {
        rep.push_column(&column(&codes[j * width..(j + 1) * width]));
    }
    rep.laws();
    rep
}

/// A column of these codes.
fn column(codes: &[u8]) -> ProductColumn
    requires { length codes.now ≤ 18 }
    ensures { result.items ≡ codes.now }
{
    let mut column = ArrayVec::new();
    if column.try_extend_from_slice(codes).is_err() {
        unreachable!();
    }
    column
}
