// The forms of a level, from its keys.
ghost use Rattle.std.specs.Prelude.{◌≤◌, IfOk};
ghost use Rattle.std.specs.List.{AllZip};
ghost use Rattle.form_key.specs.Packing.{IsPackedAs};
ghost use Rattle.level_driver.specs.Keys.{HavePacking};

use class_store::KeyList;
use level_driver::FormList;
use product_rep::Factors;
use std::alloc::{AllocError, Global};

/// The standard representations of this shape that have these keys, in their order.
pub(crate) fn forms_of(
    alloc: Global,
    factors: &Factors,
    rank: u8,
    size: u8,
    keys: &KeyList,
) -> Result<FormList, AllocError>
    requires low { 1 ≤ rank }
    requires high { rank ≤ 6 }
    requires room { rank ≤ size }
    requires most { size ≤ 16 }
    requires packings { HavePacking (record { factors = factors.now; rank = rank; size = size }) keys.now }
    ensures { IfOk result (λ forms. AllZip (λ M key. IsPackedAs (record { factors = factors.now; rank = rank; size = size }) key M) forms keys.now) }
{
    let mut forms = FormList::new(alloc);
    for i in 0..keys.len() {
        let Some(key) = keys.get(i) else {
            unreachable!()
        };
        forms.push_unpacked(factors, rank, size, key)?;
    }
    Ok(forms)
}
