// Keys on their way to the store, gathered by the stripe that they name.
ghost use Rattle.std.specs.Prelude.{◌≡◌, ◌+◌, ◌<◌, ◌∷◌, [], ℕ, List, IfOk, OnOk, length, replicate, slice_set};
ghost use Rattle.std.specs.List.{All};
ghost use Rattle.link_set.specs.Hash.{stripe_of};
ghost use Rattle.class_store.specs.Seen.{calls_with};
ghost use Rattle.workers.specs.Keys.{times};
ghost use Rattle.workers.specs.Offered.{AreEmpty, AreGathered, IsSamePass, MadeCalls, gathered_at, gathered_with};

use class_store::{KeyBatch, OpenLevel, Pass};
use link_set::Key;
use std::alloc::{AllocError, Global};
use std::mem;
use std::sync::Wait;

/// A batch without keys for each stripe.
pub(crate) fn empty_batches(alloc: Global, stripes: usize) -> Result<Vec<KeyBatch>, AllocError>
    ensures { IfOk result (λ batches. batches.items ≡ replicate stripes []) }
{
    let mut batches = Vec::with_capacity(alloc, stripes)?;
    for _ in 0..stripes {
        batches.push(KeyBatch::new(alloc))?;
    }
    Ok(batches)
}

/// Gathers one more key, and offers its batch where that is full.
pub(crate) fn add_key<R: Wait + Sync>(
    rt: &R,
    alloc: Global,
    level: &OpenLevel,
    pass: &mut Pass,
    batches: &mut [KeyBatch],
    key: Key,
) -> Result<(), AllocError>
    requires level { pass.old.level ≡ level.now.level }
    requires width { length batches.old ≡ length level.now.level.tables }
    requires gathered { AreGathered batches.old }
    ensures same { IsSamePass pass.old pass.new }
    ensures gathered { OnOk result (AreGathered batches.new) }
    ensures calls { OnOk result ((k : List ℕ) → calls_with k pass.new + gathered_with k batches.new ≡ calls_with k pass.old + gathered_with k batches.old + times k (key ∷ [])) }
{
    let stripe = key.stripe(level.stripes());
    batches[stripe].push(key);
    if batches[stripe].len() < 16 {
        return Ok(());
    }
    offer_stripe(rt, alloc, level, pass, batches, stripe)
}

/// Offers the keys that are gathered for this stripe.
fn offer_stripe<R: Wait + Sync>(
    rt: &R,
    alloc: Global,
    level: &OpenLevel,
    pass: &mut Pass,
    batches: &mut [KeyBatch],
    stripe: usize,
) -> Result<(), AllocError>
    requires level { pass.old.level ≡ level.now.level }
    requires width { length batches.old ≡ length level.now.level.tables }
    requires stripe { stripe < length batches.old }
    requires names { All (λ key. stripe_of (length batches.old) key ≡ stripe) (gathered_at batches.old stripe) }
    ensures same { IsSamePass pass.old pass.new }
    ensures emptied { batches.new ≡ slice_set batches.old stripe [] }
    ensures calls { OnOk result (MadeCalls pass.old pass.new (gathered_at batches.old stripe)) }
{
    let batch = mem::replace(&mut batches[stripe], KeyBatch::new(alloc));
    if let Err((error, _)) = level.offer_batch(rt, pass, stripe, batch) {
        return Err(error);
    }
    Ok(())
}

/// Offers all keys that are gathered.
pub(crate) fn offer_rest<R: Wait + Sync>(
    rt: &R,
    alloc: Global,
    level: &OpenLevel,
    pass: &mut Pass,
    batches: &mut [KeyBatch],
) -> Result<(), AllocError>
    requires level { pass.old.level ≡ level.now.level }
    requires width { length batches.old ≡ length level.now.level.tables }
    requires gathered { AreGathered batches.old }
    ensures same { IsSamePass pass.old pass.new }
    ensures empty { OnOk result (AreEmpty batches.new) }
    ensures calls { OnOk result ((k : List ℕ) → calls_with k pass.new ≡ calls_with k pass.old + gathered_with k batches.old) }
{
    for stripe in 0..batches.len() {
        offer_stripe(rt, alloc, level, pass, batches, stripe)?;
    }
    Ok(())
}
