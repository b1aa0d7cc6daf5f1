ghost use Rattle.std.specs.Prelude.{◌≡◌, ◌<◌, ◌≤◌, length};

use crate::closed::ClosedStripe;
use std::marker::Model;
use stripe_book::StripeTable;
use stripe_turn::{Stripe, Turns};

/// An open level: its stripes lie behind their locks, and the room for what will be left of them is made. Contracts see which level it
/// is, by its turns and the tables of its stripes, and how many passes it has.
#[derive(Drop)]
pub struct OpenLevel {
    pub(crate) tables: Vec<StripeTable>,
    pub(crate) turns: Turns,
    pub(crate) passes: usize,
    pub(crate) taken: Vec<Stripe>,
    pub(crate) room: Vec<ClosedStripe>,
}

impl Model for OpenLevel {
    ghost use Rattle.std.specs.Prelude.{◌≡◌, ◌≤◌, [], length, vec_capacity};
    ghost use Rattle.class_store.specs.Seen.{LevelSide, IsOpen};

    ghost Value = { LevelSide };

    ghost view = { λ l. record { level = record { turns = l.turns.turns; tables = l.turns.tables }; passes = l.passes } };

    ghost invariant = { λ l. IsOpen l.tables.items l.turns l.passes × (l.taken.items ≡ []) × (length l.tables.items ≤ vec_capacity l.taken) × (l.room.items ≡ []) × (length l.tables.items ≤ vec_capacity l.room) };
}

impl OpenLevel {
    /// How many stripes the level has, from 1 to 64.
    pub fn stripes(&self) -> usize
        ensures count { result ≡ length self.now.level.tables }
        ensures some { 0 < result }
        ensures few { result ≤ 64 }
    {
        self.tables.len()
    }
}
