ghost use Rattle.std.specs.Prelude.{◌≡◌, ◌<◌, ◌≤◌, ◌∷◌, [], ℕ, List, IfOk, length, map, slice_get, Some, vec_len, vec_capacity};
ghost use Rattle.std.specs.List.{AllByRecursion, sum_by};
ghost use Rattle.histories.specs.declared.entry.Entry.{Entry};
ghost use Rattle.histories.specs.History.{IsLegal};
ghost use Rattle.histories.specs.Counts.{entries_in};
ghost use Rattle.histories.specs.Joined.{joined};
ghost use Rattle.stripe_book.specs.declared.view.Phase.TheVariants.{Idle};
ghost use Rattle.stripe_book.specs.Seen.{EachLeft, TableSide};
ghost use Rattle.stripe_turn.specs.Rule.{tables_in};
ghost use Rattle.class_store.specs.declared.closed.ClosedStripe.{ClosedStripe};
ghost use Rattle.class_store.specs.Closed.{IsSettled};
ghost use Rattle.class_store.specs.Closing.{MayEnd, MayLeave, books_in, left_all, left_by};
ghost use Rattle.class_store.specs.Seen.{AreItsPasses, IsClosedBy, calls_with};

use crate::closed::{Closed, ClosedStripe};
use crate::level::OpenLevel;
use crate::pass::Pass;
use std::sync::Wait;
use stripe_book::{Caller, StripeTable};
use stripe_turn::{Stripe, Turn, Turns};

impl OpenLevel {
    /// Closes the level, once no pass is used any more. The history of each stripe is legal, has just the calls that the passes made,
    /// begins with what each pass had seen of it, and all its keys name that stripe. So the histories one after the other, with each pass's calls numbered anew, are one legal
    /// history, and each key has as many entries as the passes made calls with it.
    pub fn close<R: Wait + Sync>(self, rt: &R, passes: Vec<Pass>) -> Closed
        requires { AreItsPasses self passes.items }
        ensures width { length result ≡ length self.level.tables }
        ensures histories { (s : ℕ) (h : List Entry) → slice_get result s ≡ Some h → IsClosedBy self passes.items s h }
        ensures together { IsLegal (joined result) }
        ensures entries { (key : List ℕ) → entries_in result key ≡ sum_by (calls_with key) passes.items }
    {
        let mut passes = passes;
        let OpenLevel {
            tables,
            turns,
            passes: _,
            taken,
            room,
        } = self;
        let Some(last) = passes.pop() else {
            unreachable!()
        };
        let Pass {
            number: _,
            callers,
            turn,
        } = last;
        let mut taken = take_all(rt, &turns, turn, taken, tables.len());
        leave_all(tables.as_slice(), taken.as_mut_slice(), callers);
        while let Some(pass) = passes.pop() {
            let Pass {
                number: _,
                callers,
                turn: _,
            } = pass;
            leave_all(tables.as_slice(), taken.as_mut_slice(), callers);
        }
        let stripes = end_all(tables, taken, room);
        Closed { stripes }
    }
}

// Takes each stripe and keeps it.
fn take_all<R: Wait + Sync>(
    rt: &R,
    turns: &Turns,
    turn: Turn,
    taken: Vec<Stripe>,
    count: usize,
) -> Vec<Stripe>
    requires of { turn.turns ≡ turns.now.turns }
    requires tables { turn.tables ≡ turns.now.tables }
    requires count { count ≡ length turns.now.tables }
    requires free { turn.held ≡ [] }
    requires empty { taken.items ≡ [] }
    requires room { count ≤ vec_capacity taken }
    ensures { tables_in result.items ≡ turn.tables }
{
    let mut turn = turn;
    let mut taken = taken;
    for at in 0..count {
        taken.push_reserved(turns.lock(rt, &mut turn, at));
    }
    taken
}

// Each caller leaves at its stripe.
fn leave_all(tables: &[StripeTable], taken: &mut [Stripe], callers: Vec<Caller>)
    requires tables { map (λ (t : TableSide). t.table) tables.now ≡ tables_in taken.old }
    requires callers { MayLeave (tables_in taken.old) callers.items }
    requires width { length taken.old ≡ vec_len callers }
    ensures { books_in taken.new ≡ left_all (books_in taken.old) callers.items }
{
    let mut callers = callers.into_iter();
    for at in 0..taken.len() {
        let Some(caller) = callers.next() else {
            unreachable!()
        };
        leave_one(&tables[at], &mut taken[at], caller);
    }
}

fn leave_one(table: &StripeTable, stripe: &mut Stripe, caller: Caller)
    requires stripe_table { stripe.old.book.table ≡ table.now.table }
    requires caller_table { caller.table ≡ table.now.table }
    requires idle { caller.phase ≡ Idle }
    ensures { stripe.new.book ≡ left_by stripe.old.book caller }
{
    table.leave(&mut stripe.book, caller);
}

// Ends each stripe.
fn end_all(
    tables: Vec<StripeTable>,
    taken: Vec<Stripe>,
    room: Vec<ClosedStripe>,
) -> Vec<ClosedStripe>
    requires width { vec_len tables ≡ vec_len taken }
    requires left { MayEnd tables.items (books_in taken.items) }
    requires empty { room.items ≡ [] }
    requires room { vec_len tables ≤ vec_capacity room }
    ensures ended { map (λ (c : ClosedStripe). c.ended) result.items ≡ books_in taken.items }
    ensures settled { (n : ℕ) → AllByRecursion (λ (t : TableSide). t.callers ≡ n) tables.items → AllByRecursion (IsSettled n) result.items }
{
    let mut room = room;
    let mut tables = tables.into_iter();
    let mut taken = taken.into_iter();
    for _ in 0..tables.len() {
        let Some(table) = tables.next() else {
            unreachable!()
        };
        let Some(stripe) = taken.next() else {
            unreachable!()
        };
        room.push_reserved(end_one(table, stripe));
    }
    room
}

pub(crate) fn end_one(table: StripeTable, stripe: Stripe) -> ClosedStripe
    requires table { stripe.book.table ≡ table.table }
    requires left { EachLeft table.callers stripe.book.left }
    ensures ended { result.ended ≡ stripe.book }
    ensures settled { IsSettled table.callers result }
{
    let Stripe { set, book, entries } = stripe;
    let ended = table.end(book);
    ClosedStripe {
        set,
        ended,
        entries,
    }
}
