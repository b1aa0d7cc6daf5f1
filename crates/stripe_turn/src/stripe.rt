ghost use Rattle.std.specs.Prelude.{◌≡◌, ◌-◌, ◌^◌, length, min};
ghost use Rattle.histories.specs.SetObject.{keys_after};

use link_set::LinkSet;
use std::snapshot::Snapshot;
use stripe_book::Book;

/// What lies behind a stripe's lock. The keys of its set are those of the set after the book's history, and `entries` is the length
/// of that history, or the last value of `u64` where the history is longer.
#[derive(Drop)]
pub struct Stripe {
    pub set: LinkSet,
    pub book: Book,
    pub entries: u64,
    pub ghost replayed: { set.keys ≡ keys_after book.history },
    pub ghost counted: { entries ≡ min (length book.history) (2 ^ 64 - 1) },
}

/// The stripes with which the turns were opened, known to contracts alone: they tell the stripes' tables. It has no bytes.
#[derive(Drop)]
pub struct Tables {
    pub of: Snapshot<Vec<Stripe>>,
}
