// A row of numbers whose writes are counted.
ghost use Rattle.std.specs.Prelude.{◌≡◌, ◌+◌, ◌-◌, ◌<◌, ◌≤◌, ◌^◌, ◌∷◌, [], ◌++◌, length, replicate, IfOk, OnOk, OnErr, MatchOption, slice_get, slice_index, slice_set, Some};

use crate::steps::Steps;
use std::alloc::{AllocError, Global};
use std::marker::Model;
use std::sync::ledger::Ledger;

/// A row of numbers. Contracts see its entries, and for how many more there is room.
#[derive(Drop)]
pub struct Rows {
    items: Vec<u64>,
}

impl Model for Rows {
    ghost use Rattle.std.specs.Prelude.{vec_len, vec_capacity, ◌-◌};
    ghost use Rattle.link_set.specs.Row.{Row};

    ghost Value = { Row };

    ghost view = { λ r. record { entries = r.items.items; room = vec_capacity r.items - vec_len r.items } };
}

impl Rows {
    /// A row of `count` entries, all of them `blank`.
    pub fn made(alloc: Global, count: usize, blank: u64) -> Result<Rows, AllocError>
        ensures { IfOk result (λ r. r.entries ≡ replicate count blank) }
    {
        let items = Vec::from_elem(alloc, blank, count)?;
        Ok(Rows { items })
    }

    /// The number of entries.
    pub fn len(&self) -> usize
        ensures { result ≡ length self.now.entries }
    {
        self.items.len()
    }

    /// The entry at a place; none where the row is not that long.
    pub fn get(&self, at: usize) -> Option<u64>
        ensures { MatchOption result (length self.now.entries ≤ at) (λ x. slice_get self.now.entries at ≡ Some x) }
    {
        self.items.get(at).copied()
    }

    /// The entry at a place that there is.
    pub fn at(&self, at: usize) -> u64
        requires { at < length self.now.entries }
        ensures { result ≡ slice_index self.now.entries at }
    {
        self.items[at]
    }

    /// Makes room for so many more entries. Memory is wanting only where there was less room.
    pub fn reserve(&mut self, more: usize) -> Result<(), AllocError>
        ensures entries { self.new.entries ≡ self.old.entries }
        ensures room { OnOk result (more ≤ self.new.room) }
        ensures kept { self.old.room ≤ self.new.room }
        ensures err { OnErr result (self.old.room < more) }
    {
        self.items.reserve(more)
    }

    /// Writes one entry, which is one step.
    pub fn set<L: Ledger>(&mut self, at: usize, to: u64, steps: &mut Steps<L>)
        requires at { at < length self.old.entries }
        requires few { steps.old < 2 ^ 63 }
        ensures entries { self.new.entries ≡ slice_set self.old.entries at to }
        ensures room { self.new.room ≡ self.old.room }
        ensures steps { steps.new ≡ steps.old + 1 }
    {
        steps.tick();
        self.items[at] = to;
    }

    /// Adds one last entry, which is one step. Memory is wanting only where there was no room; the row then stays.
    pub fn push<L: Ledger>(&mut self, to: u64, steps: &mut Steps<L>) -> Result<(), AllocError>
        requires { steps.old < 2 ^ 63 }
        ensures ok { OnOk result ((self.new.entries ≡ self.old.entries ++ to ∷ []) × (self.old.room ≤ self.new.room + 1) × (steps.new ≡ steps.old + 1)) }
        ensures err { OnErr result ((self.old.room ≡ 0) × (self.new ≡ self.old) × (steps.new ≡ steps.old)) }
    {
        if self.items.len() == self.items.capacity() {
            self.items.reserve(1)?;
        }
        self.items.push_reserved(to);
        steps.tick();
        Ok(())
    }
}
