ghost use Rattle.std.specs.Prelude.{◌≡◌, ◌+◌, ◌-◌, ◌^◌, ◌<◌, ◌≤◌, ◌∷◌, ◌++◌, [], List, ℕ, length, min, IfOk, IfErr, Ok, slice_set, slice_get, Some};
ghost use Rattle.std.specs.List.{All, Contains};
ghost use mathlib.Core.List.{IsPrefix};
ghost use Rattle.histories.specs.declared.entry.Entry.{Entry};
ghost use Rattle.histories.specs.SetObject.{keys_after, reply_to};
ghost use Rattle.histories.specs.History.{entry, calls_by};
ghost use Rattle.histories.specs.Counts.{is_new, keys_of};
ghost use Rattle.link_set.specs.Hash.{stripe_of};
ghost use Rattle.stripe_book.specs.declared.view.Phase.TheVariants.{Idle};
ghost use Rattle.class_store.specs.Batches.{HasRoom, IsBatch, OffersBatch, SomeIsMissing};
ghost use Rattle.class_store.specs.Seen.{Track, track_of};

use crate::batch::KeyBatch;
use crate::level::OpenLevel;
use crate::offer::enter_call;
use crate::pass::Pass;
use histories::Reply;
use link_set::{Key, LinkSet};
use std::alloc::AllocError;
use std::sync::Wait;
use stripe_book::{Book, Caller, StripeTable};
use stripe_turn::Stripe;

impl OpenLevel {
    /// Offers the keys of a batch to the stripe that they name, in their order and under one lock, and says how many were told New.
    /// An empty batch changes nothing.
    ///
    /// `NoMemory` where there was no memory for the keys that were missing. The batch comes back then, and the pass is as it was.
    pub fn offer_batch<R: Wait + Sync>(
        &self,
        rt: &R,
        pass: &mut Pass,
        stripe: usize,
        keys: KeyBatch,
    ) -> Result<u64, (AllocError, KeyBatch)>
        requires level { pass.old.level ≡ self.now.level }
        requires stripe { stripe < length self.now.level.tables }
        requires names { All (λ key. stripe_of (length self.now.level.tables) key ≡ stripe) keys }
        ensures same { (pass.new.level ≡ pass.old.level) × (pass.new.number ≡ pass.old.number) }
        ensures offered { IfOk result (OffersBatch pass.old pass.new stripe keys) }
        ensures none { keys ≡ [] → (result ≡ Ok 0) × (pass.new ≡ pass.old) }
        ensures refused { IfErr result (λ back. (back.1 ≡ keys) × (pass.new ≡ pass.old) × ((old : Track) → slice_get pass.old.tracks stripe ≡ Some old → SomeIsMissing keys (keys_of old.seen))) }
    {
        let _ = &pass.callers;
        if keys.len() == 0 {
            return Ok(0);
        }
        self.offer_some(rt, pass, stripe, keys)
    }

    // Offers the keys of a batch that isn't empty.
    fn offer_some<R: Wait + Sync>(
        &self,
        rt: &R,
        pass: &mut Pass,
        stripe: usize,
        keys: KeyBatch,
    ) -> Result<u64, (AllocError, KeyBatch)>
        requires level { pass.old.level ≡ self.now.level }
        requires stripe { stripe < length self.now.level.tables }
        requires names { All (λ key. stripe_of (length self.now.level.tables) key ≡ stripe) keys }
        requires some { 0 < length keys }
        ensures same { (pass.new.level ≡ pass.old.level) × (pass.new.number ≡ pass.old.number) }
        ensures offered { IfOk result (OffersBatch pass.old pass.new stripe keys) }
        ensures refused { IfErr result (λ back. (back.1 ≡ keys) × (pass.new ≡ pass.old) × ((old : Track) → slice_get pass.old.tracks stripe ≡ Some old → SomeIsMissing keys (keys_of old.seen))) }
    {
        let held = self.turns.lock(rt, &mut pass.turn, stripe);
        let (held, answer) = offered_batch(
            &self.tables[stripe],
            held,
            &mut pass.callers[stripe],
            keys,
        );
        self.turns.unlock(&mut pass.turn, stripe, held);
        answer
    }
}

// Offers the keys to a stripe that is held.
fn offered_batch(
    table: &StripeTable,
    stripe: Stripe,
    caller: &mut Caller,
    keys: KeyBatch,
) -> (Stripe, Result<u64, (AllocError, KeyBatch)>)
    requires stripe_table { stripe.book.table ≡ table.now.table }
    requires caller_table { caller.old.table ≡ table.now.table }
    requires idle { caller.old.phase ≡ Idle }
    requires some { 0 < length keys }
    ensures stripe { result.0.book.table ≡ stripe.book.table }
    ensures same { (caller.new.table ≡ caller.old.table) × (caller.new.number ≡ caller.old.number) × (caller.new.phase ≡ Idle) }
    ensures offered { IfOk result.1 (λ news. IsBatch caller.old.number keys (keys_after stripe.book.history) stripe.book.history news (track_of caller.old) (track_of caller.new) × (calls_by caller.new.number caller.new.seen ≡ caller.new.mine)) }
    ensures refused { IfErr result.1 (λ back. (back.1 ≡ keys) × (caller.new ≡ caller.old) × SomeIsMissing keys (keys_of caller.old.seen)) }
{
    let Stripe {
        mut set,
        mut book,
        entries,
    } = stripe;
    table.look(&mut book, caller);
    let more = room_for(&set, keys.keys.as_slice());
    if let Err(refused) = set.reserve(more) {
        return (Stripe { set, book, entries }, Err((refused, keys)));
    }
    let (stripe, news) = enter_all(table, set, book, entries, caller, keys);
    (stripe, Ok(news))
}

// The room that the set needs for these keys: none where it has them all.
fn room_for(set: &LinkSet, keys: &[Key]) -> usize
    ensures few { result ≤ length keys.now }
    ensures room { HasRoom set.now.keys result keys.now }
    ensures missing { 0 < result → SomeIsMissing keys.now set.now.keys }
{
    for key in keys {
        if !set.contains(key) {
            return keys.len();
        }
    }
    0
}

// Enters a call for each key of the batch.
fn enter_all(
    table: &StripeTable,
    set: LinkSet,
    book: Book,
    entries: u64,
    caller: &mut Caller,
    keys: KeyBatch,
) -> (Stripe, u64)
    requires book_table { book.table ≡ table.now.table }
    requires caller_table { caller.old.table ≡ table.now.table }
    requires idle { caller.old.phase ≡ Idle }
    requires some { 0 < length keys }
    requires replayed { set.keys ≡ keys_after book.history }
    requires counted { entries ≡ min (length book.history) (2 ^ 64 - 1) }
    requires room { HasRoom set.keys set.spare keys }
    requires begun { IsPrefix caller.old.seen book.history }
    ensures stripe { result.0.book.table ≡ book.table }
    ensures same { (caller.new.table ≡ caller.old.table) × (caller.new.number ≡ caller.old.number) × (caller.new.phase ≡ Idle) }
    ensures batch { IsBatch caller.old.number keys (keys_after book.history) book.history result.1 (track_of caller.old) (track_of caller.new) }
    ensures calls { calls_by caller.new.number caller.new.seen ≡ caller.new.mine }
{
    let mut set = set;
    let mut book = book;
    let mut entries = entries;
    let mut news = 0;
    let KeyBatch { keys } = keys;
    let count = keys.len();
    let mut keys = keys.into_iter();
    for _ in 0..count {
        let Some(key) = keys.next() else {
            unreachable!()
        };
        if enter_one(table, &mut set, &mut book, caller, key) {
            news += 1;
        }
        entries = entries.saturating_add(1);
    }
    (Stripe { set, book, entries }, news)
}

// Enters a call for the key, and says whether it was new. There is room for it, so nothing can be refused after the entry.
fn enter_one(
    table: &StripeTable,
    set: &mut LinkSet,
    book: &mut Book,
    caller: &mut Caller,
    key: Key,
) -> bool
    requires book_table { book.old.table ≡ table.now.table }
    requires caller_table { caller.old.table ≡ table.now.table }
    requires idle { caller.old.phase ≡ Idle }
    requires replayed { set.old.keys ≡ keys_after book.old.history }
    requires room { ¬ (Contains set.old.keys key) → 0 < set.old.spare }
    ensures book { book.new ≡ record book.old { history = book.old.history ++ entry caller.old.number (length caller.old.mine) key (reply_to (keys_after book.old.history) key) ∷ [] } }
    ensures caller { caller.new ≡ record caller.old { phase = Idle; seen = book.new.history; mine = caller.old.mine ++ entry caller.old.number (length caller.old.mine) key (reply_to (keys_after book.old.history) key) ∷ [] } }
    ensures calls { calls_by caller.new.number caller.new.seen ≡ caller.new.mine }
    ensures replayed { set.new.keys ≡ keys_after book.new.history }
    ensures spare { set.old.spare ≤ set.new.spare + 1 }
    ensures stays { Contains set.old.keys key → set.new ≡ set.old }
    ensures told { result ≡ is_new (reply_to (keys_after book.old.history) key) }
{
    if set.contains(&key) {
        enter_call(table, book, caller, &key, Reply::Again);
        return false;
    }
    enter_call(table, book, caller, &key, Reply::New);
    let Ok(_) = set.insert(key) else {
        unreachable!()
    };
    true
}
