// The tries of one parent.
ghost use Rattle.std.specs.Prelude.{◌≡◌, length, IfOk, OnOk};
ghost use Rattle.level_driver.specs.Children.{IsParent};
ghost use Rattle.workers.specs.Offered.{AreEmpty, IsSamePass, OffersChildren};

use crate::batches::{add_key, offer_rest};
use class_store::{KeyBatch, OpenLevel, Pass};
use extension::Columns;
use form_key::pack;
use level_driver::{Children, Forbidden};
use matroid_theory::Mode;
use product_rep::Rep;
use std::alloc::{AllocError, Global};
use std::sync::Wait;

/// Offers the key of the form of the mode of each representation that the parent and one more column make and that has no forbidden minor, and
/// says how many these are. Keys are offered 16 at a time, and the rest at the end.
pub(crate) fn offer_children<R: Wait + Sync>(
    rt: &R,
    alloc: Global,
    mode: Mode,
    forbidden: &Forbidden,
    parent: &Rep,
    level: &OpenLevel,
    pass: &mut Pass,
    batches: &mut [KeyBatch],
) -> Result<u64, AllocError>
    requires parent { IsParent parent.now }
    requires level { pass.old.level ≡ level.now.level }
    requires width { length batches.old ≡ length level.now.level.tables }
    requires empty { AreEmpty batches.old }
    ensures same { IsSamePass pass.old pass.new }
    ensures empty { OnOk result (AreEmpty batches.new) }
    ensures offered { IfOk result (λ tried. OffersChildren mode forbidden.now parent.now pass.old pass.new tried) }
{
    parent.laws();
    let mut children = Children::of(alloc, parent, mode, forbidden)?;
    let mut tried = 0;
    for column in Columns::of(parent) {
        if let Some(child) = children.child(&column)? {
            add_key(rt, alloc, level, pass, batches, pack(alloc, &child)?)?;
            tried += 1;
        }
    }
    offer_rest(rt, alloc, level, pass, batches)?;
    Ok(tried)
}
