ghost use Rattle.std.specs.Prelude.{◌≡◌, ◌<◌, ◌∷◌, IfSome, IfNone, Some, None, slice_get, slice_index, length};
ghost use Rattle.std.specs.List.{Contains};
ghost use Rattle.atomic_table.specs.Table.{rest};
ghost use Rattle.stripe_turn.specs.Rule.{tables_of};
ghost use Rattle.stripe_turn.specs.Seen.{turned_by, without};

use crate::rule::{Gives, Tries};
use crate::stripe::{Stripe, Tables};
use crate::turn::{Turn, Turns};
use atomic_table::Seat;
use std::sync::Wait;

impl Turns {
    // One attempt, which gets the stripe where it is free.
    fn try_lock(&self, seat: &mut Seat<Option<Stripe>, Tables>, at: usize) -> Option<Stripe>
        requires table { seat.old.table_id ≡ self.now.turns }
        requires at { at < length self.now.tables }
        ensures table { seat.new.table_id ≡ seat.old.table_id }
        ensures got { IfSome result (λ s. (seat.new.me ≡ (seat.old.me.0, (at, None) ∷ seat.old.me.1)) × (slice_get (tables_of seat.old.me.0) at ≡ Some s.book.table)) }
        ensures none { IfNone result (seat.new.me ≡ seat.old.me) }
    {
        if self.table.shared.compare_exchange::<Tries>(seat, at, 0, 1) != 0 {
            return None;
        }
        self.table.shared.exchange(seat, at, None)
    }

    // Attempts until one gets the stripe.
    fn wait_for<R: Wait>(
        &self,
        rt: &R,
        seat: &mut Seat<Option<Stripe>, Tables>,
        at: usize,
    ) -> Stripe
        requires table { seat.old.table_id ≡ self.now.turns }
        requires at { at < length self.now.tables }
        ensures table { seat.new.table_id ≡ seat.old.table_id }
        ensures held { seat.new.me ≡ (seat.old.me.0, (at, None) ∷ seat.old.me.1) }
        ensures book { slice_get (tables_of seat.old.me.0) at ≡ Some result.book.table }
    {
        for _ in rt.forever() {
            if let Some(stripe) = self.try_lock(seat, at) {
                return stripe;
            }
            self.table.shared.park(rt, at, 1);
        }
        unreachable!()
    }

    /// Waits until the turn of the stripe `at` is free, and takes it with what lies behind the stripe's lock.
    pub fn lock<R: Wait>(&self, rt: &R, turn: &mut Turn, at: usize) -> Stripe
        requires table { turn.old.turns ≡ self.now.turns }
        requires at { at < length self.now.tables }
        requires free { ¬ (Contains turn.old.held at) }
        ensures held { turn.new ≡ record turn.old { held = at ∷ turn.old.held } }
        ensures book { slice_get turn.old.tables at ≡ Some result.book.table }
    {
        let _ = &self.table;
        let stripe = self.wait_for(rt, &mut turn.seat, at);
        turn.held.insert(0, at as u8);
        stripe
    }

    // Gives back the turn that stands first.
    fn give_back(&self, seat: &mut Seat<Option<Stripe>, Tables>, at: usize, stripe: Stripe)
        requires table { seat.old.table_id ≡ self.now.turns }
        requires at { at < length self.now.tables }
        requires held { seat.old.me.1 ≡ (at, None) ∷ rest seat.old.me.1 }
        requires book { slice_get (tables_of seat.old.me.0) at ≡ Some stripe.book.table }
        ensures table { seat.new.table_id ≡ seat.old.table_id }
        ensures held { seat.new.me ≡ (seat.old.me.0, rest seat.old.me.1) }
    {
        let _out = self.table.shared.exchange(seat, at, Some(stripe));
        self.table.shared.store::<Gives>(seat, at, 0);
        self.table.shared.wake_one(at);
    }

    /// Gives back the turn of the stripe `at`, with what lies behind the stripe's lock.
    pub fn unlock(&self, turn: &mut Turn, at: usize, stripe: Stripe)
        requires table { turn.old.turns ≡ self.now.turns }
        requires at { at < length self.now.tables }
        requires held { Contains turn.old.held at }
        requires book { slice_get turn.old.tables at ≡ Some stripe.book.table }
        ensures { turn.new ≡ record turn.old { held = without at turn.old.held } }
    {
        let _ = &self.table;
        let place = place_of(turn.held.as_slice(), at as u8);
        let behind = turn.held.len() - 1 - place;
        turn_by(&mut turn.seat, place);
        self.give_back(&mut turn.seat, at, stripe);
        turn_by(&mut turn.seat, behind);
        turn.held.remove(place);
    }
}

// Where the number stands.
fn place_of(held: &[u8], at: u8) -> usize
    requires { Contains held.now at }
    ensures within { result < length held.now }
    ensures here { slice_index held.now result ≡ at }
{
    let mut place = 0;
    while held[place] != at {
        place += 1;
    }
    place
}

// Turns the held slots so many times.
fn turn_by(seat: &mut Seat<Option<Stripe>, Tables>, times: usize)
    ensures table { seat.new.table_id ≡ seat.old.table_id }
    ensures held { seat.new.me ≡ (seat.old.me.0, turned_by times seat.old.me.1) }
{
    for _ in 0..times {
        seat.turn();
    }
}
