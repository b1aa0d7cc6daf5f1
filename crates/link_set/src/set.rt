// The set.
ghost use Rattle.std.specs.Prelude.{◌≡◌, ◌+◌, ◌<◌, ◌≤◌, ◌^◌, ◌∷◌, [], ◌++◌, ◌==◌, length, min, IsTrue, ◌↔◌, Ok, Some, slice_get, IfOk, IfErr, IfSome, MatchOption, OnOk, OnErr, MatchBool, true, false, vec_len, vec_capacity, if◌then◌else◌};
ghost use Rattle.std.specs.List.{Contains};
ghost use Rattle.link_set.specs.Chains.{AreDistinct};
ghost use Rattle.link_set.specs.Growing.{IsSet};
ghost use Rattle.link_set.specs.Room.{HasRoom, IsBlank};
ghost use Rattle.link_set.specs.Contents.{Contents, heads_after};

use crate::key::Key;
use crate::rows::Rows;
use crate::steps::Steps;
use crate::table::{Heads, Table, move_some, stands};
use std::alloc::{AllocError, Global};
use std::marker::{Brand, Model};
use std::mem;
use std::sync::ledger::{Blank, Ledger};

/// How many chains a new set has. It is also the most that `reserve` makes room for, so one doubling at most comes before the
/// next call of it.
const FIRST_HEADS: usize = 16;

/// A set of keys. Contracts see its keys in order of insertion, all distinct, the number of heads, and for how many inserts room
/// was made.
///
/// A key is a node of a chain, and the chains go by index: a head or a link is one more than the place of a key, or 0. There are
/// two tables of heads. When there are as many keys as heads, a table with twice as many takes the place of the newer one, and the
/// keys move into its chains four at each insert; until then they are found in the chains of the older table.
#[derive(Drop)]
pub struct LinkSet {
    keys: Vec<Key>,
    newer: Table,
    older: Table,
    next: Option<Heads>,
    moved: usize,
    from: usize,
    split: usize,
    spare: usize,
}

impl Model for LinkSet {
    ghost use Rattle.std.specs.Prelude.{length, ◌-◌, vec_len, vec_capacity};
    ghost use Rattle.link_set.specs.Contents.{Contents};

    ghost Value = { Contents };

    ghost use Rattle.link_set.specs.Growing.{IsSet};
    ghost use Rattle.link_set.specs.Room.{HasRoom};

    ghost view = { λ s. record { keys = s.keys.items; heads = length s.newer.moved.entries; spare = s.spare } };

    ghost invariant = { λ s. IsSet s.keys.items s.newer s.older s.moved s.from s.split
        × HasRoom s.spare (length s.keys.items) (vec_capacity s.keys - vec_len s.keys) (length s.newer.moved.entries) s.newer s.older s.next };
}

impl LinkSet {
    /// An empty set.
    pub fn new(alloc: Global) -> Result<LinkSet, AllocError>
        ensures { IfOk result (λ s. s ≡ record { keys = []; heads = 16; spare = 0 }) }
    {
        let newer = Table {
            moved: Rows::made(alloc, FIRST_HEADS, 0)?,
            fresh: Rows::made(alloc, FIRST_HEADS, 0)?,
            links: Rows::made(alloc, 0, 0)?,
        };
        let older = Table {
            moved: Rows::made(alloc, 0, 0)?,
            fresh: Rows::made(alloc, 0, 0)?,
            links: Rows::made(alloc, 0, 0)?,
        };
        Ok(LinkSet {
            keys: Vec::new(alloc),
            newer,
            older,
            next: None,
            moved: 0,
            from: 0,
            split: 0,
            spare: 0,
        })
    }

    /// The number of keys.
    pub fn len(&self) -> usize
        ensures len { result ≡ length self.now.keys }
        ensures distinct { AreDistinct self.now.keys }
    {
        self.keys.len()
    }

    /// The key that was inserted as number `i`, counted from 0.
    pub fn get(&self, i: usize) -> Option<&Key>
        ensures { MatchOption result (length self.now.keys ≤ i) (λ key. slice_get self.now.keys i ≡ Some key.now) }
    {
        self.keys.get(i)
    }

    /// How many heads the newer table has, at least as many as there are keys.
    pub fn heads(&self) -> usize
        ensures heads { result ≡ self.now.heads }
        ensures fits { length self.now.keys ≤ self.now.heads }
    {
        self.newer.moved.len()
    }

    /// For how many inserts room was made.
    pub fn spare(&self) -> usize
        ensures { result ≡ self.now.spare }
    {
        self.spare
    }

    /// Whether the key is there.
    pub fn contains(&self, key: &Key) -> bool
        ensures { IsTrue result ↔ Contains self.now.keys key.now }
    {
        let keys = self.keys.as_slice();
        let newer = &self.newer;
        if stands(keys, &newer.links, &newer.moved, 0, self.moved, key) {
            return true;
        }
        if stands(keys, &newer.links, &newer.fresh, self.from, keys.len(), key) {
            return true;
        }
        if self.moved >= self.from {
            return false;
        }
        let older = &self.older;
        if stands(keys, &older.links, &older.moved, 0, self.split, key) {
            return true;
        }
        stands(keys, &older.links, &older.fresh, self.split, self.from, key)
    }

    /// Makes room for so many inserts, at most 16. Memory is wanting only where less room was made before; the set then stays.
    pub fn reserve(&mut self, more: usize) -> Result<(), AllocError>
        requires { more ≤ 16 }
        ensures keys { self.new.keys ≡ self.old.keys }
        ensures heads { self.new.heads ≡ self.old.heads }
        ensures ok { OnOk result ((more ≤ self.new.spare) × (self.old.spare ≤ self.new.spare)) }
        ensures err { OnErr result ((self.old.spare < more) × (self.new.spare ≡ self.old.spare)) }
    {
        if more <= self.spare {
            return Ok(());
        }
        self.keys.reserve(more)?;
        self.newer.links.reserve(more)?;
        self.older.links.reserve(more)?;
        let alloc = *self.keys.allocator();
        let wanted = self.keys.len() + more;
        let heads = self.newer.moved.len();
        make_ready(alloc, &mut self.next, wanted, heads)?;
        self.spare = more;
        Ok(())
    }

    /// Puts the key last where it is missing, and says whether it was. That is at most 12 steps, and none where the key is there.
    /// Memory is wanting only where the key is missing and no room was made; the key then comes back, the set stays, and no step is
    /// counted.
    pub fn insert_counted<L: Ledger>(
        &mut self,
        key: Key,
        steps: &mut Steps<L>,
    ) -> Result<bool, (AllocError, Key)>
        requires { steps.old < 2 ^ 62 }
        ensures present { Contains self.old.keys key → result ≡ Ok false }
        ensures answer { IfOk result (λ added. MatchBool added
            (¬ (Contains self.old.keys key) × (self.new.keys ≡ self.old.keys ++ key ∷ []))
            (Contains self.old.keys key × (self.new ≡ self.old))) }
        ensures refused { IfErr result (λ back. ¬ (Contains self.old.keys key) × (self.old.spare ≡ 0) × (back.1 ≡ key) × (self.new ≡ self.old)) }
        ensures spare { IfOk result (λ added. self.old.spare ≤ self.new.spare + 1) }
        ensures heads { IfOk result (λ added. added ≡ true → self.new.heads ≡ heads_after self.old) }
        ensures cost { IfOk result (λ added. MatchBool added (steps.new ≤ steps.old + 12) (steps.new ≡ steps.old)) }
        ensures unmoved { OnErr result (steps.new ≡ steps.old) }
    {
        if self.contains(&key) {
            return Ok(false);
        }
        if self.spare == 0 {
            if self.reserve(1).is_err() {
                return Err((AllocError, key));
            }
        }
        self.widen();
        self.add(key, steps);
        Ok(true)
    }

    /// The same, with no count of steps.
    pub fn insert(&mut self, key: Key) -> Result<bool, (AllocError, Key)>
        ensures present { Contains self.old.keys key → result ≡ Ok false }
        ensures answer { IfOk result (λ added. MatchBool added
            (¬ (Contains self.old.keys key) × (self.new.keys ≡ self.old.keys ++ key ∷ []))
            (Contains self.old.keys key × (self.new ≡ self.old))) }
        ensures refused { IfErr result (λ back. ¬ (Contains self.old.keys key) × (self.old.spare ≡ 0) × (back.1 ≡ key) × (self.new ≡ self.old)) }
        ensures spare { IfOk result (λ added. self.old.spare ≤ self.new.spare + 1) }
        ensures heads { IfOk result (λ added. added ≡ true → self.new.heads ≡ heads_after self.old) }
    {
        self.insert_from::<Brand>(key, Blank::new(1))
    }

    /// The same, with a count of its own.
    fn insert_from<L: Ledger>(&mut self, key: Key, blank: Blank) -> Result<bool, (AllocError, Key)>
        requires name { blank.name ≡ L.name }
        requires parts { blank.parts ≡ L.parts }
        requires some { 0 < blank.parts }
        ensures present { Contains self.old.keys key → result ≡ Ok false }
        ensures answer { IfOk result (λ added. MatchBool added
            (¬ (Contains self.old.keys key) × (self.new.keys ≡ self.old.keys ++ key ∷ []))
            (Contains self.old.keys key × (self.new ≡ self.old))) }
        ensures refused { IfErr result (λ back. ¬ (Contains self.old.keys key) × (self.old.spare ≡ 0) × (back.1 ≡ key) × (self.new ≡ self.old)) }
        ensures spare { IfOk result (λ added. self.old.spare ≤ self.new.spare + 1) }
        ensures heads { IfOk result (λ added. added ≡ true → self.new.heads ≡ heads_after self.old) }
    {
        let mut steps = Steps::<L>::start(blank);
        self.insert_counted(key, &mut steps)
    }

    /// Doubles the heads where there are as many keys.
    fn widen(&mut self)
        requires { 0 < self.old.spare }
        ensures keys { self.new.keys ≡ self.old.keys }
        ensures heads { self.new.heads ≡ heads_after self.old }
        ensures spare { self.new.spare ≡ self.old.spare }
        ensures room { length self.new.keys < self.new.heads }
    {
        if self.keys.len() == self.newer.moved.len() {
            self.double();
        }
    }

    /// Twice as many heads: the newer table becomes the older one.
    fn double(&mut self)
        requires spare { 0 < self.old.spare }
        requires full { length self.old.keys ≡ self.old.heads }
        ensures keys { self.new.keys ≡ self.old.keys }
        ensures heads { self.new.heads ≡ self.old.heads + self.old.heads }
        ensures spare { self.new.spare ≡ self.old.spare }
        ensures room { length self.new.keys < self.new.heads }
    {
        let Some(blank) = self.next.take() else {
            unreachable!()
        };
        mem::swap(&mut self.newer, &mut self.older);
        self.newer.moved = blank.moved;
        self.newer.fresh = blank.fresh;
        self.split = self.from;
        self.from = self.keys.len();
        self.moved = 0;
    }

    /// Moves up to four keys, and puts the new key last: at most eleven steps.
    fn add<L: Ledger>(&mut self, key: Key, steps: &mut Steps<L>)
        requires missing { ¬ (Contains self.old.keys key) }
        requires spare { 0 < self.old.spare }
        requires fits { length self.old.keys < self.old.heads }
        requires few { steps.old < 2 ^ 62 }
        ensures keys { self.new.keys ≡ self.old.keys ++ key ∷ [] }
        ensures heads { self.new.heads ≡ self.old.heads }
        ensures spare { self.new.spare + 1 ≡ self.old.spare }
        ensures steps { steps.new ≤ steps.old + 11 }
    {
        let place = move_some(
            self.keys.as_slice(),
            &mut self.newer,
            self.moved,
            self.from,
            steps,
        );
        self.moved = place;
        let count = self.keys.len() as u64;
        let bucket = key.bucket(self.newer.fresh.len());
        let before = self.newer.fresh.at(bucket);
        let Ok(()) = self.newer.links.push(before, steps) else {
            unreachable!()
        };
        let Ok(()) = self.older.links.push(0, steps) else {
            unreachable!()
        };
        self.newer.fresh.set(bucket, count + 1, steps);
        self.keys.push_reserved(key);
        self.spare -= 1;
    }
}

/// Makes heads for the next table, where so many keys want more heads than there are.
fn make_ready(
    alloc: Global,
    next: &mut Option<Heads>,
    wanted: usize,
    heads: usize,
) -> Result<(), AllocError>
    requires { IfSome next.old (IsBlank (heads + heads)) }
    ensures ok { OnOk result (MatchOption next.new (wanted ≤ heads) (IsBlank (heads + heads))) }
    ensures err { OnErr result (next.new ≡ next.old) }
{
    if next.is_some() {
        return Ok(());
    }
    if wanted <= heads {
        return Ok(());
    }
    *next = Some(blank_heads(alloc, heads)?);
    Ok(())
}

/// Blank heads for a table with twice as many heads.
fn blank_heads(alloc: Global, heads: usize) -> Result<Heads, AllocError>
    ensures { IfOk result (IsBlank (heads + heads)) }
{
    let Some(count) = heads.checked_mul(2) else {
        return Err(AllocError);
    };
    let moved = Rows::made(alloc, count, 0)?;
    let fresh = Rows::made(alloc, count, 0)?;
    Ok(Heads { moved, fresh })
}
