ghost use Rattle.stripe_book.specs.Seen.{CallerSide, BookSide, caller_side, book_side, hand_of, ledger_of, IsCaller, IsBook};

use crate::offer::Offer;
use crate::view::View;
use atomic_table::Seat;
use std::marker::Model;

/// The seat of one caller. Contracts see its table and number, its phase, what it has seen of the history, and its own calls.
#[derive(Drop)]
pub struct Caller {
    pub(crate) number: usize,
    pub(crate) seat: Seat<Offer, View>,
}

impl Model for Caller {
    ghost Value = { CallerSide };

    ghost view = { λ c. caller_side c.seat.table_id (hand_of c.seat.me.0) };

    ghost invariant = { λ c. IsCaller c.number c.seat.table_id.words c.seat.me };
}

/// The seat that keeps the history, behind the stripe's lock. Contracts see its table, the history, how many callers were made,
/// and the lists of the callers that have left, the last one first.
#[derive(Drop)]
pub struct Book {
    pub(crate) seat: Seat<Offer, View>,
}

impl Model for Book {
    ghost Value = { BookSide };

    ghost view = { λ b. book_side b.seat.table_id (ledger_of b.seat.me.0) };

    ghost invariant = { λ b. IsBook b.seat.me };
}
