ghost use Rattle.std.specs.Prelude.{◌≡◌, ◌↔◌, ◌≤◌, ◌++◌, [], ℕ, List, IfOk, OnOk, MatchOption, Some, length, slice_get};
ghost use Rattle.std.specs.List.{Contains, flat_map};
ghost use Rattle.std.specs.List.Sorted.{IsStrictlySortedBy};
ghost use Rattle.std.specs.Cmp.Lexicographic.{slice_cmp};
ghost use Rattle.std.specs.Ordering.{nat_cmp};
ghost use Rattle.class_store.specs.declared.closed.ClosedStripe.{ClosedStripe};
ghost use Rattle.class_store.specs.Seen.{IsNewIn};

use crate::closed::{Closed, ClosedStripe};
use crate::key_list::KeyList;
use link_set::{Key, LinkSet};
use std::alloc::{AllocError, Global};

impl Closed {
    /// The keys that were told New, strictly rising in the order of their bytes.
    ///
    /// `NoMemory` where there was no memory for the list or for a long key.
    pub fn rising(&self, alloc: Global) -> Result<KeyList, AllocError>
        ensures rising { IfOk result (λ l. IsStrictlySortedBy (slice_cmp nat_cmp) l) }
        ensures keys { IfOk result (λ l. (key : List ℕ) → Contains l key ↔ IsNewIn self.now key) }
    {
        let mut keys = gathered(alloc, self.stripes.as_slice())?;
        keys.sort_unstable();
        keys.dedup();
        Ok(KeyList { keys })
    }
}

// The keys of all sets.
fn gathered(alloc: Global, stripes: &[ClosedStripe]) -> Result<Vec<Key>, AllocError>
    ensures { IfOk result (λ v. v.items ≡ flat_map (λ (c : ClosedStripe). c.set.keys) stripes.now) }
{
    let mut keys = Vec::new(alloc);
    for stripe in stripes {
        copy_keys(&stripe.set, &mut keys)?;
    }
    Ok(keys)
}

// A copy of each key of the set behind the others.
fn copy_keys(set: &LinkSet, keys: &mut Vec<Key>) -> Result<(), AllocError>
    ensures { OnOk result (keys.new.items ≡ keys.old.items ++ set.now.keys) }
{
    for i in 0..set.len() {
        let Some(key) = set.get(i) else {
            unreachable!()
        };
        keys.push(key.copy()?)?;
    }
    Ok(())
}
