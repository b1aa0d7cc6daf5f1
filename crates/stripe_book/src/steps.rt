ghost use Rattle.std.specs.Prelude.{◌≡◌, ◌∷◌, ◌++◌, [], length};
ghost use mathlib.Core.List.{IsPrefix};
ghost use Rattle.stripe_book.specs.declared.view.Phase.TheVariants.{Idle, Begun, Entered};
ghost use Rattle.stripe_book.specs.declared.view.View.TheVariants as view;
ghost use Rattle.histories.specs.SetObject.{keys_after, reply_to};
ghost use Rattle.histories.specs.History.{calls_by, entry};
ghost use Rattle.stripe_book.specs.Rule.{Lags};
ghost use Rattle.stripe_book.specs.Seen.{hand_of, ledger_of};
ghost use Rattle.stripe_book.specs.Steps.{note_of, told, noticed, traded, Trades};

use crate::offer::Offer;
use crate::plays::{Begins, Meets, Notices, Records, Seals, Signs, Tells};
use crate::seats::{Book, Caller};
use crate::table::StripeTable;
use crate::view::View;
use atomic_table::Seat;
use histories::Reply;
use link_set::Key;
use std::snapshot::Snapshot;

impl StripeTable {
    /// An idle caller begins a call.
    pub fn begin_call(&self, caller: &mut Caller)
        requires table { caller.old.table ≡ self.now.table }
        requires idle { caller.old.phase ≡ Idle }
        ensures { caller.new ≡ record caller.old { phase = Begun } }
    {
        self.table
            .shared
            .store::<Begins>(&mut caller.seat, caller.number + 1, 1);
    }

    /// The caller's call is done: its entry was entered, and seen by `meet`.
    pub fn seal(&self, caller: &mut Caller)
        requires table { caller.old.table ≡ self.now.table }
        requires entered { caller.old.phase ≡ Entered }
        requires seen { calls_by caller.old.number caller.old.seen ≡ caller.old.mine }
        ensures { caller.new ≡ record caller.old { phase = Idle } }
    {
        self.table
            .shared
            .store::<Seals>(&mut caller.seat, caller.number + 1, 0);
    }

    // One seat takes in a note of the other.
    fn pass_note(&self, from: &mut Seat<Offer, View>, to: &mut Seat<Offer, View>)
        requires from_table { from.old.table_id ≡ self.now.table }
        requires to_table { to.old.table_id ≡ self.now.table }
        ensures tables { (from.new.table_id ≡ from.old.table_id) × (to.new.table_id ≡ to.old.table_id) }
        ensures from { from.new.me ≡ from.old.me }
        ensures to { to.new.me ≡ (told to.old.me.0 (view.Tells (note_of from.old.me.0)), to.old.me.1) }
    {
        let note = self.table.shared.split_seat::<Tells>(from);
        self.table.shared.join_seat::<Tells>(to, note);
    }

    // Each of the two takes in a note of the other, the caller last.
    fn trade(&self, book: &mut Seat<Offer, View>, caller: &mut Seat<Offer, View>)
        requires book_table { book.old.table_id ≡ self.now.table }
        requires caller_table { caller.old.table_id ≡ self.now.table }
        requires book { book.old.me ≡ (view.Keeps (ledger_of book.old.me.0), []) }
        requires caller { caller.old.me ≡ (view.Calls (hand_of caller.old.me.0), []) }
        requires no_note { (hand_of caller.old.me.0).notes ≡ [] }
        ensures tables { (book.new.table_id ≡ book.old.table_id) × (caller.new.table_id ≡ caller.old.table_id) }
        ensures book { book.new.me ≡ (view.Keeps (noticed (ledger_of book.old.me.0)), []) }
        ensures caller { caller.new.me ≡ (view.Calls (traded (hand_of caller.old.me.0) (ledger_of book.old.me.0).history), []) }
        ensures shows { Trades (hand_of caller.old.me.0) (ledger_of book.old.me.0).history }
    {
        self.pass_note(caller, book);
        self.table.shared.load::<Notices>(book, 0);
        self.pass_note(book, caller);
        self.table.shared.load::<Meets>(caller, 0);
    }

    /// Shows, of an idle caller, that what it has seen is a beginning of the history, and that the calls there under its number are
    /// just its own.
    pub fn look(&self, book: &mut Book, caller: &mut Caller)
        requires book_table { book.old.table ≡ self.now.table }
        requires caller_table { caller.old.table ≡ self.now.table }
        requires idle { caller.old.phase ≡ Idle }
        ensures book { book.new ≡ book.old }
        ensures caller { caller.new ≡ caller.old }
        ensures seen { IsPrefix caller.old.seen book.old.history }
        ensures calls { calls_by caller.old.number book.old.history ≡ caller.old.mine }
    {
        self.trade(&mut book.seat, &mut caller.seat);
    }

    /// Puts the call of a caller that has begun one last in the history, in one step on the caller's word. `reply` is what the set
    /// answers after the history.
    pub fn enter(&self, book: &mut Book, caller: &mut Caller, key: &Key, reply: Reply)
        requires book_table { book.old.table ≡ self.now.table }
        requires caller_table { caller.old.table ≡ self.now.table }
        requires begun { caller.old.phase ≡ Begun }
        requires reply { reply ≡ reply_to (keys_after book.old.history) key.now }
        ensures book { book.new ≡ record book.old { history = book.old.history ++ entry caller.old.number (length caller.old.mine) key.now reply ∷ [] } }
        ensures caller { caller.new ≡ record caller.old { phase = Entered; mine = caller.old.mine ++ entry caller.old.number (length caller.old.mine) key.now reply ∷ [] } }
    {
        self.trade(&mut book.seat, &mut caller.seat);
        let said = Offer {
            key: Snapshot::of(key),
            reply,
        };
        let word = caller.number + 1;
        self.table
            .shared
            .compare_exchange_with::<Signs>(&mut caller.seat, word, 1, 2, &said);
        self.pass_note(&mut caller.seat, &mut book.seat);
        self.table.shared.load::<Records>(&mut book.seat, word);
        self.pass_note(&mut book.seat, &mut caller.seat);
    }

    /// A caller that has entered its call sees the history. What it had seen lacks at most its last call, so no other call of its
    /// own came between.
    pub fn meet(&self, book: &mut Book, caller: &mut Caller)
        requires book_table { book.old.table ≡ self.now.table }
        requires caller_table { caller.old.table ≡ self.now.table }
        requires entered { caller.old.phase ≡ Entered }
        ensures book { book.new ≡ book.old }
        ensures caller { caller.new ≡ record caller.old { seen = book.old.history } }
        ensures seen { IsPrefix caller.old.seen book.old.history }
        ensures between { Lags Entered (calls_by caller.old.number caller.old.seen) caller.old.mine }
        ensures calls { calls_by caller.old.number book.old.history ≡ caller.old.mine }
    {
        self.table.shared.load::<Meets>(&mut caller.seat, 0);
        self.trade(&mut book.seat, &mut caller.seat);
    }
}
