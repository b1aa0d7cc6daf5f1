ghost use Rattle.std.specs.Prelude.{◌≡◌, ◌<◌, ◌≤◌, [], IfOk, length, replicate};
ghost use Rattle.stripe_book.specs.Seen.{EachLeft};
ghost use Rattle.class_store.specs.declared.closed.ClosedStripe.{ClosedStripe};
ghost use Rattle.class_store.specs.Closed.{IsReplayed, histories_of};
ghost use Rattle.class_store.specs.Seen.{fresh_passes};

use crate::close::end_one;
use crate::closed::{Closed, ClosedStripe};
use crate::level::OpenLevel;
use crate::opened::open_stripes;
use crate::pass::Pass;
use link_set::LinkSet;
use std::alloc::{AllocError, Global};
use std::marker::Model;
use stripe_book::{Book, StripeTable, open_stripe};
use stripe_turn::Stripe;

/// A number of stripes, from 1 to 64, and the level that was closed last, which has as many.
#[derive(Drop)]
pub struct ClassStore {
    stripes: usize,
    last: Closed,
}

impl Model for ClassStore {
    ghost use Rattle.class_store.specs.Closed.{StoreSide, IsStore};

    ghost Value = { StoreSide };

    ghost view = { λ s. record { stripes = s.stripes; last = s.last } };

    ghost invariant = { λ s. IsStore s.stripes s.last };
}

impl ClassStore {
    /// A store of so many stripes. Its last closed level has an empty history for each.
    ///
    /// `NoMemory` where there was no memory for that level.
    pub fn new(alloc: Global, stripes: usize) -> Result<ClassStore, AllocError>
        requires some { 0 < stripes }
        requires few { stripes ≤ 64 }
        ensures { IfOk result (λ s. s ≡ record { stripes = stripes; last = replicate stripes [] }) }
    {
        let last = empty_level(alloc, stripes)?;
        Ok(ClassStore { stripes, last })
    }

    /// An open level with as many stripes as the store, all empty, and so many passes, numbered from 0, which have seen and done nothing.
    /// All memory that the level's closing wants is taken here.
    ///
    /// `NoMemory` where there was no memory for the tables, the passes or the closed level's list of stripes.
    pub fn open_level(
        &self,
        alloc: Global,
        passes: usize,
    ) -> Result<(OpenLevel, Vec<Pass>), AllocError>
        requires some { 0 < passes }
        requires few { passes ≤ 64 }
        ensures level { IfOk result (λ r. (length r.0.level.tables ≡ self.now.stripes) × (r.0.passes ≡ passes)) }
        ensures passes { IfOk result (λ r. r.1.items ≡ fresh_passes r.0.level passes) }
    {
        open_stripes(alloc, self.stripes, passes)
    }

    /// The level becomes the one that was closed last. It has as many stripes as the store.
    pub fn keep(&mut self, closed: Closed)
        requires { length closed ≡ self.old.stripes }
        ensures { self.new ≡ record self.old { last = closed } }
    {
        self.last = closed;
    }

    /// The level that was closed last.
    pub fn last(&self) -> &Closed
        ensures { result.now ≡ self.now.last }
    {
        &self.last
    }
}

// A closed level of so many stripes without entries.
fn empty_level(alloc: Global, stripes: usize) -> Result<Closed, AllocError>
    ensures { IfOk result (λ c. c ≡ replicate stripes []) }
{
    let mut kept = Vec::with_capacity(alloc, stripes)?;
    for _ in 0..stripes {
        kept.push(empty_stripe(alloc)?)?;
    }
    Ok(Closed { stripes: kept })
}

// A closed stripe without entries.
fn empty_stripe(alloc: Global) -> Result<ClosedStripe, AllocError>
    ensures replayed { IfOk result (λ c. IsReplayed c) }
    ensures empty { IfOk result (λ c. c.ended.history ≡ []) }
{
    let set = LinkSet::new(alloc)?;
    let (table, book) = left_stripe(alloc)?;
    let stripe = Stripe {
        set,
        book,
        entries: 0,
    };
    Ok(end_one(table, stripe))
}

// The table and the book of a stripe that its one caller has left.
fn left_stripe(alloc: Global) -> Result<(StripeTable, Book), AllocError>
    ensures table { IfOk result (λ r. r.1.table ≡ r.0.table) }
    ensures left { IfOk result (λ r. EachLeft r.0.callers r.1.left) }
    ensures empty { IfOk result (λ r. r.1.history ≡ []) }
{
    let (table, mut book, mut callers) = open_stripe(alloc, 1)?;
    let Some(caller) = callers.pop() else {
        unreachable!()
    };
    table.leave(&mut book, caller);
    Ok((table, book))
}
