// Packing.
ghost use Rattle.std.specs.Prelude.{◌≡◌, ◌≤◌, ◌+◌, ◌++◌, length, IfOk, IsOk};
ghost use Rattle.matroid_theory.specs.Rep.{IsStandard};
ghost use Rattle.form_key.specs.Codes.{AreHalves};
ghost use Rattle.form_key.specs.Packing.{later_codes, packing};

use crate::codes::{Codes, pair_up};
use arrayvec::ArrayVec;
use link_set::Key;
use product_rep::Rep;
use std::alloc::{AllocError, Global};

/// The key of a standard representation. Memory is wanting only for a key of more than 64 bytes.
pub fn pack(alloc: Global, rep: &Rep) -> Result<Key, AllocError>
    requires { IsStandard rep.now }
    ensures key { IfOk result (λ key. key ≡ packing rep.now) }
    ensures inside { length (packing rep.now) ≤ 64 → IsOk result }
{
    let codes = codes_of(rep);
    let bytes = pair_up(codes.as_slice());
    Key::of(alloc, bytes.as_slice())
}

/// The codes of the columns after the unit columns.
fn codes_of(rep: &Rep) -> Codes
    requires { IsStandard rep.now }
    ensures codes { result.items ≡ later_codes rep.now }
    ensures halves { AreHalves result.items }
{
    let mut codes = ArrayVec::new();
    for j in rep.rank()..rep.size() {
        push_codes(&mut codes, rep.column(j).as_slice());
    }
    codes
}

/// Adds the codes of one more column.
fn push_codes(codes: &mut Codes, column: &[u8])
    requires { length codes.old.items + length column.now ≤ 180 }
    ensures { codes.new.items ≡ codes.old.items ++ column.now }
{
    if codes.try_extend_from_slice(column).is_err() {
        unreachable!();
    }
}
