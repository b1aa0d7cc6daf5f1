// Callers that offer keys to one level, side by side.
ghost use Rattle.std.specs.Prelude.{◌<◌};

use crate::callers::{Caller, closed_level};
use class_store::{ClassStore, NoMemory, NoPause, Pause};
use link_set::Key;
use std::alloc::Global;
use std::sync::Wait;
use std::sync::atomic::{AtomicU64, Ordering};
use std::test::*;
use std::thread;

// A caller with one key, of this byte.
fn caller_with(alloc: Global, byte: u8) -> Result<Caller, NoMemory> {
    let key = Key::of(alloc, &[byte])?;
    Ok(Caller::new(vec![in alloc; key]?))
}

#[test]
fn one_of_two_is_told_new(rt: HostRuntime) -> Result<(), Fail> {
    let alloc = rt.alloc();
    let store = ClassStore::new(alloc, 1)?;
    for byte in 0..50 {
        let callers = [caller_with(alloc, byte)?, caller_with(alloc, byte)?];
        let closed = closed_level(&rt, alloc, &store, &callers, &NoPause)?;
        assert!(rt;
            callers[0].was_told_new() != callers[1].was_told_new(),
            "one of the two is told New"
        );
        assert_eq!(rt; closed.entries(0), 2);
    }
    Ok(())
}

// Waits while it holds a stripe, until another one is held too.
#[derive(Drop)]
struct Meeting {
    came: AtomicU64,
    met: AtomicU64,
}

impl Pause for Meeting {
    fn inside<R: Wait + Sync>(&self, _rt: &R, _stripe: usize) {
        self.came.fetch_add(1, Ordering::SeqCst);
        for _ in 0..10_000_000 {
            if self.came.load(Ordering::SeqCst) == 2 {
                self.met.fetch_add(1, Ordering::SeqCst);
                return;
            }
            thread::yield_now();
        }
    }
}

#[test]
fn two_stripes_are_held_at_once(rt: HostRuntime) -> Result<(), Fail> {
    let alloc = rt.alloc();
    let store = ClassStore::new(alloc, 2)?;
    let zero = Key::of(alloc, &[0])?;
    let one = Key::of(alloc, &[1])?;
    assert!(rt;
        zero.stripe(2) != one.stripe(2),
        "the keys are of two stripes"
    );
    let callers = [caller_with(alloc, 0)?, caller_with(alloc, 1)?];
    let meeting = Meeting {
        came: AtomicU64::new(0),
        met: AtomicU64::new(0),
    };
    closed_level(&rt, alloc, &store, &callers, &meeting)?;
    assert!(rt; callers[0].was_told_new(), "the first is told New");
    assert!(rt; callers[1].was_told_new(), "the second is told New");
    assert_eq!(rt; meeting.met.load(Ordering::SeqCst), 2);
    Ok(())
}

// A caller with 2,500 keys of 1,000, from the given one on.
fn caller_from(alloc: Global, first: usize) -> Result<Caller, NoMemory>
    requires { first < 1000 }
{
    let mut keys = Vec::with_capacity(alloc, 2500)?;
    for more in 0..2500 {
        let number = (first + more) % 1000;
        let high = (number / 256) as u8;
        let low = (number % 256) as u8;
        keys.push(Key::of(alloc, &[high, low])?)?;
    }
    Ok(Caller::new(keys))
}

#[test]
fn four_threads_offer_ten_thousand(rt: HostRuntime) -> Result<(), Fail> {
    let alloc = rt.alloc();
    let store = ClassStore::new(alloc, 8)?;
    let callers = [
        caller_from(alloc, 0)?,
        caller_from(alloc, 250)?,
        caller_from(alloc, 500)?,
        caller_from(alloc, 750)?,
    ];
    let closed = closed_level(&rt, alloc, &store, &callers, &NoPause)?;
    let mut entries = 0u64;
    for stripe in 0..8 {
        entries = entries.saturating_add(closed.entries(stripe));
    }
    assert_eq!(rt; entries, 10_000);
    assert_eq!(rt; closed.rising(alloc)?.len(), 1000);
    Ok(())
}
