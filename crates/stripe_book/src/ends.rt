ghost use Rattle.std.specs.Prelude.{◌≡◌, ◌+◌, ◌<◌, ◌≤◌, ◌∷◌, [], ℕ, IfOk};
ghost use Rattle.stripe_book.specs.declared.view.Phase.TheVariants.{Idle};
ghost use Rattle.histories.specs.History.{IsLegal};
ghost use Rattle.stripe_book.specs.Rule.{trace};
ghost use Rattle.stripe_book.specs.Seen.{CallerSide, EachLeft, OwnCalls, OfCallersBelow, SawBeginnings, fresh_callers};

use crate::offer::Offer;
use crate::plays::{Leaves, Makes};
use crate::seats::{Book, Caller};
use crate::table::StripeTable;
use crate::view::View;
use atomic_table::{Seat, Table};
use std::alloc::{AllocError, Global};
use std::marker::Model;
use std::snapshot::Snapshot;

/// A history that is done. Contracts see it as its book was.
#[derive(Drop)]
pub struct Ended {
    last: Snapshot<Seat<Offer, View>>,
}

impl Model for Ended {
    ghost use Rattle.stripe_book.specs.Seen.{BookSide, book_side, ledger_of};

    ghost Value = { BookSide };

    ghost view = { λ e. book_side e.last.value.table_id (ledger_of e.last.value.me.0) };

    ghost invariant = { λ e. Unit {0} };
}

/// A stripe without entries: its table, its book, and as many callers as `callers`, numbered from 0, which are idle and have seen and
/// done nothing.
///
/// `NoMemory` where there was no memory for the table or the list of callers.
pub fn open_stripe(
    alloc: Global,
    callers: usize,
) -> Result<(StripeTable, Book, Vec<Caller>), AllocError>
    requires some { 1 ≤ callers }
    requires few { callers ≤ 64 }
    ensures table { IfOk result (λ r. r.0.callers ≡ callers) }
    ensures book { IfOk result (λ r. r.1 ≡ record { table = r.0.table; history = []; made = callers; left = [] }) }
    ensures callers { IfOk result (λ r. r.2.items ≡ fresh_callers r.0.table callers) }
{
    let words = [0u64; 65];
    let (table, seat) = Table::of_words(alloc, &words[..callers + 1], &callers)?;
    let stripe = StripeTable { table };
    let mut book = Book { seat };
    let mut all = Vec::new(alloc);
    for number in 0..callers {
        all.push(stripe.make_caller(&mut book, number))?;
    }
    Ok((stripe, book, all))
}

impl StripeTable {
    // The next caller.
    fn make_caller(&self, book: &mut Book, number: usize) -> Caller
        requires table { book.old.table ≡ self.now.table }
        requires next { book.old.made ≡ number }
        requires room { number < self.now.callers }
        requires small { number < 64 }
        ensures book { book.new ≡ record book.old { made = number + 1 } }
        ensures caller { result ≡ record { table = self.now.table; number = number; phase = Idle; seen = []; mine = [] } }
    {
        let seat = self.table.shared.split_seat::<Makes>(&mut book.seat);
        Caller { number, seat }
    }

    /// An idle caller leaves. The book keeps its lists.
    pub fn leave(&self, book: &mut Book, caller: Caller)
        requires book_table { book.old.table ≡ self.now.table }
        requires caller_table { caller.table ≡ self.now.table }
        requires idle { caller.phase ≡ Idle }
        ensures { book.new ≡ record book.old { left = trace caller.number caller.seen caller.mine ∷ book.old.left } }
    {
        let Caller { number: _, seat } = caller;
        self.table.shared.join_seat::<Leaves>(&mut book.seat, seat);
    }

    /// Ends the history, once each caller has left. It is legal, each caller's calls in it are those that the caller made, and it has no
    /// others. What a caller had seen is a beginning of it.
    pub fn end(self, book: Book) -> Ended
        requires table { book.table ≡ self.table }
        requires left { EachLeft self.callers book.left }
        ensures book { result ≡ book }
        ensures legal { IsLegal result.history }
        ensures calls { OwnCalls result.history result.left }
        ensures seen { SawBeginnings result.history result.left }
        ensures callers { OfCallersBelow self.callers result.history }
    {
        let StripeTable { table } = self;
        let Book { seat } = book;
        let last = Snapshot::of(&seat);
        table.close_with(seat).free();
        Ended { last }
    }
}
