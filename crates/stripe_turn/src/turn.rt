use crate::rule::TurnRule;
use crate::stripe::{Stripe, Tables};
use arrayvec::ArrayVec;
use atomic_table::{Seat, Table};
use std::alloc::Global;
use std::marker::Model;

/// The turns of all stripes of a level, which all threads share. Contracts see which table it is, and the tables of the stripes in
/// order.
#[derive(Drop)]
pub struct Turns {
    pub(crate) table: Table<Option<Stripe>, Tables, Tables, TurnRule, Global>,
}

impl Model for Turns {
    ghost use Rattle.std.specs.Prelude.{◌≡◌, ◌≤◌, length};
    ghost use Rattle.stripe_turn.specs.Rule.{tables_of};
    ghost use Rattle.stripe_turn.specs.Seen.{TurnsSide};

    ghost Value = { TurnsSide };

    ghost view = { λ t. record { turns = t.table.shared.table_id; tables = tables_of t.table.shared.key } };

    ghost invariant = { λ t. (t.table.shared.table_id.words ≡ length (tables_of t.table.shared.key)) × (t.table.shared.table_id.words ≤ 64) };
}

/// The seat of one caller at the turns. Contracts see the table of the turns, the tables of the stripes in order, and the numbers of
/// the stripes whose turns it holds, the last one taken first.
#[derive(Drop)]
pub struct Turn {
    pub(crate) held: ArrayVec<u8, 64>,
    pub(crate) seat: Seat<Option<Stripe>, Tables>,
}

impl Model for Turn {
    ghost use Rattle.stripe_turn.specs.Rule.{tables_of};
    ghost use Rattle.stripe_turn.specs.Seen.{TurnSide, IsTurn};

    ghost Value = { TurnSide };

    ghost view = { λ t. record { turns = t.seat.table_id; tables = tables_of t.seat.me.0; held = t.held.items } };

    ghost invariant = { λ t. IsTurn t.held.items t.seat.table_id.words t.seat.me };
}
