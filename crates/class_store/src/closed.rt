ghost use Rattle.std.specs.Prelude.{◌≡◌, ◌<◌, ◌-◌, ◌^◌, [], min, length, slice_index_or};

use link_set::LinkSet;
use std::marker::Model;
use stripe_book::Ended;

/// What is left of a stripe: its set, its history and the length of that.
#[derive(Drop)]
pub struct ClosedStripe {
    pub(crate) set: LinkSet,
    pub(crate) ended: Ended,
    pub(crate) entries: u64,
}

/// A closed level. Contracts see the histories of its stripes, in order.
#[derive(Drop)]
pub struct Closed {
    pub(crate) stripes: Vec<ClosedStripe>,
}

impl Model for Closed {
    ghost use Rattle.std.specs.Prelude.{List};
    ghost use Rattle.histories.specs.declared.entry.Entry.{Entry};
    ghost use Rattle.class_store.specs.Closed.{IsClosed, histories_of};

    ghost Value = { List (List Entry) };

    ghost view = { λ c. histories_of c.stripes.items };

    ghost invariant = { λ c. IsClosed c.stripes.items };
}

impl Closed {
    /// How many entries the history of the stripe has, or the last value of `u64` where it has more.
    pub fn entries(&self, stripe: usize) -> u64
        requires { stripe < length self.now }
        ensures { result ≡ min (length (slice_index_or self.now stripe [])) (2 ^ 64 - 1) }
    {
        self.stripes[stripe].entries
    }
}
