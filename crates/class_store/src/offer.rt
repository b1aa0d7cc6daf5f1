ghost use Rattle.std.specs.Prelude.{◌≡◌, ◌<◌, ◌∷◌, ◌++◌, [], length, IfOk, IfErr, IfSome, OnOk, slice_set, slice_get, Some};
ghost use Rattle.std.specs.List.{Contains};
ghost use Rattle.histories.specs.SetObject.{keys_after, reply_to};
ghost use Rattle.histories.specs.History.{entry, calls_by};
ghost use Rattle.histories.specs.Counts.{keys_of};
ghost use Rattle.link_set.specs.Hash.{stripe_of};
ghost use Rattle.stripe_book.specs.declared.view.Phase.TheVariants.{Idle};
ghost use Rattle.class_store.specs.Seen.{IsOffer, OffersKey, Track, track_of};

use crate::level::OpenLevel;
use crate::pass::Pass;
use crate::pause::{NoPause, Pause};
use histories::Reply;
use link_set::Key;
use std::alloc::AllocError;
use std::sync::Wait;
use stripe_book::{Book, Caller, StripeTable};
use stripe_turn::Stripe;

impl OpenLevel {
    /// Offers the key to the stripe that it names, and says whether it was new: `New` exactly where no entry before has it, `Again`
    /// exactly where one has it. The entry is one step, and no memory is taken after it.
    ///
    /// `NoMemory` where there was no memory for a key that was missing. The key comes back then, and the pass is as it was.
    pub fn offer<R: Wait + Sync>(
        &self,
        rt: &R,
        pass: &mut Pass,
        key: Key,
    ) -> Result<Reply, (AllocError, Key)>
        requires { pass.old.level ≡ self.now.level }
        ensures same { (pass.new.level ≡ pass.old.level) × (pass.new.number ≡ pass.old.number) }
        ensures offered { IfOk result (OffersKey pass.old pass.new (stripe_of (length self.now.level.tables) key) key) }
        ensures refused { IfErr result (λ back. (back.1 ≡ key) × (pass.new ≡ pass.old) × ((old : Track) → slice_get pass.old.tracks (stripe_of (length self.now.level.tables) key) ≡ Some old → ¬ (Contains (keys_of old.seen) key))) }
    {
        self.offer_at(rt, pass, key, &NoPause)
    }

    /// The same, with a call of the pause while the stripe's lock is held.
    pub fn offer_at<R: Wait + Sync, P: Pause>(
        &self,
        rt: &R,
        pass: &mut Pass,
        key: Key,
        pause: &P,
    ) -> Result<Reply, (AllocError, Key)>
        requires { pass.old.level ≡ self.now.level }
        ensures same { (pass.new.level ≡ pass.old.level) × (pass.new.number ≡ pass.old.number) }
        ensures offered { IfOk result (OffersKey pass.old pass.new (stripe_of (length self.now.level.tables) key) key) }
        ensures refused { IfErr result (λ back. (back.1 ≡ key) × (pass.new ≡ pass.old) × ((old : Track) → slice_get pass.old.tracks (stripe_of (length self.now.level.tables) key) ≡ Some old → ¬ (Contains (keys_of old.seen) key))) }
    {
        let at = key.stripe(self.tables.len());
        let stripe = self.turns.lock(rt, &mut pass.turn, at);
        pause.inside(rt, at);
        let (stripe, answer) = offered(&self.tables[at], stripe, &mut pass.callers[at], key);
        self.turns.unlock(&mut pass.turn, at, stripe);
        answer
    }
}

// Offers the key to a stripe that is held.
fn offered(
    table: &StripeTable,
    stripe: Stripe,
    caller: &mut Caller,
    key: Key,
) -> (Stripe, Result<Reply, (AllocError, Key)>)
    requires stripe_table { stripe.book.table ≡ table.now.table }
    requires caller_table { caller.old.table ≡ table.now.table }
    requires idle { caller.old.phase ≡ Idle }
    ensures stripe { result.0.book.table ≡ stripe.book.table }
    ensures same { (caller.new.table ≡ caller.old.table) × (caller.new.number ≡ caller.old.number) × (caller.new.phase ≡ Idle) }
    ensures offered { IfOk result.1 (λ reply. IsOffer caller.old.number key reply (track_of caller.old) (track_of caller.new) × (calls_by caller.new.number caller.new.seen ≡ caller.new.mine)) }
    ensures refused { IfErr result.1 (λ back. (back.1 ≡ key) × (caller.new ≡ caller.old) × ¬ (Contains (keys_of caller.old.seen) key)) }
{
    let Stripe {
        mut set,
        mut book,
        entries,
    } = stripe;
    table.look(&mut book, caller);
    let entries_after = entries.saturating_add(1);
    if set.contains(&key) {
        enter_call(table, &mut book, caller, &key, Reply::Again);
        let stripe = Stripe {
            set,
            book,
            entries: entries_after,
        };
        return (stripe, Ok(Reply::Again));
    }
    if let Err(refused) = set.insert(key) {
        return (Stripe { set, book, entries }, Err(refused));
    }
    let Some(key) = set.get(set.len() - 1) else {
        unreachable!()
    };
    enter_call(table, &mut book, caller, key, Reply::New);
    let stripe = Stripe {
        set,
        book,
        entries: entries_after,
    };
    (stripe, Ok(Reply::New))
}

// One whole call on a stripe that is held.
pub(crate) fn enter_call(
    table: &StripeTable,
    book: &mut Book,
    caller: &mut Caller,
    key: &Key,
    reply: Reply,
)
    requires book_table { book.old.table ≡ table.now.table }
    requires caller_table { caller.old.table ≡ table.now.table }
    requires idle { caller.old.phase ≡ Idle }
    requires reply { reply ≡ reply_to (keys_after book.old.history) key.now }
    ensures book { book.new ≡ record book.old { history = book.old.history ++ entry caller.old.number (length caller.old.mine) key.now reply ∷ [] } }
    ensures caller { caller.new ≡ record caller.old { phase = Idle; seen = book.old.history ++ entry caller.old.number (length caller.old.mine) key.now reply ∷ []; mine = caller.old.mine ++ entry caller.old.number (length caller.old.mine) key.now reply ∷ [] } }
    ensures calls { calls_by caller.new.number caller.new.seen ≡ caller.new.mine }
{
    table.begin_call(caller);
    table.enter(book, caller, key, reply);
    table.meet(book, caller);
    table.seal(caller);
}
