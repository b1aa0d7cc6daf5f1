ghost use Rattle.std.specs.Prelude.{◌≡◌, ◌+◌};
ghost use Rattle.stripe_book.specs.Seen.{TableSide};

use crate::offer::Offer;
use crate::rule::StripeRule;
use crate::view::View;
use atomic_table::Table;
use std::alloc::Global;
use std::marker::Model;

/// The table of one stripe, which all threads share: a word for each caller says how far it is, 0 idle, 1 begun, 2 entered,
/// and word 0 never changes. Contracts see which table it is, and its number of callers.
#[derive(Drop)]
pub struct StripeTable {
    pub(crate) table: Table<Offer, View, usize, StripeRule, Global>,
}

impl Model for StripeTable {
    ghost Value = { TableSide };

    ghost view = { λ t. record { table = t.table.shared.table_id; callers = t.table.shared.key } };

    ghost invariant = { λ t. (t.table.shared.table_id.words ≡ t.table.shared.key + 1) × (t.table.shared.table_id.slots ≡ 0) };
}
