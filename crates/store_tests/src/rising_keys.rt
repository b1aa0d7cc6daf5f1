// A set of 2,000 keys, which rise from 11 to 90 bytes.
ghost use Rattle.std.specs.Prelude.{◌≡◌, ◌≤◌, ◌<◌, IfOk, length};

use crate::key_sets::{equal_bytes, key_of};
use link_set::{Key, LinkSet, NoMemory, Steps};
use std::alloc::Global;
use std::marker::Brand;
use std::process::Abort;
use std::sync::ledger::{Blank, Ledger};
use std::test::Fail;

// Inserts with a count of steps.
fn counted<L: Ledger>(set: &mut LinkSet, key: Key, blank: Blank) -> Option<bool>
    requires name { blank.name ≡ L.name }
    requires parts { blank.parts ≡ L.parts }
    requires some { 0 < blank.parts }
{
    let mut steps = Steps::<L>::start(blank);
    set.insert_counted(key, &mut steps).ok()
}

// The key of so many bytes, each of them this one.
fn equal_key(alloc: Global, byte: u8, count: usize) -> Result<Key, NoMemory>
    requires { count ≤ 90 }
{
    key_of(alloc, &equal_bytes(alloc, byte, count)?)
}

// Key n of the 2,000.
fn rising_key(alloc: Global, n: usize) -> Result<Key, NoMemory> {
    equal_key(alloc, (n % 25) as u8, 11 + n / 25 % 80)
}

// Inserts one of the rising keys, and says whether it was missing.
fn insert_one(alloc: Global, set: &mut LinkSet, n: usize) -> Result<Option<bool>, NoMemory> {
    Ok(set.insert(rising_key(alloc, n)?).ok())
}

// Inserts these of the rising keys, and says whether each was missing.
fn insert_rising(
    alloc: Global,
    set: &mut LinkSet,
    from: usize,
    to: usize,
) -> Result<bool, NoMemory> {
    let mut missing = true;
    for n in from..to {
        missing &= insert_one(alloc, set, n)? == Some(true);
    }
    Ok(missing)
}

// How many of so many rising keys are in the set.
fn found_rising(alloc: Global, set: &LinkSet, count: usize) -> Result<usize, NoMemory> {
    let mut found = 0usize;
    for n in 0..count {
        if set.contains(&rising_key(alloc, n)?) {
            found = found.saturating_add(1);
        }
    }
    Ok(found)
}

// Whether this key stands at this place.
fn stands_at(set: &LinkSet, n: usize, key: &Key) -> bool {
    match set.get(n) {
        Some(there) => there.bytes() == key.bytes(),
        None => false,
    }
}

// How many of so many rising keys stand at their own place.
fn placed_rising(alloc: Global, set: &LinkSet, count: usize) -> Result<usize, NoMemory> {
    let mut placed = 0usize;
    for n in 0..count {
        if stands_at(set, n, &rising_key(alloc, n)?) {
            placed = placed.saturating_add(1);
        }
    }
    Ok(placed)
}

// Inserts these of the rising keys, which were all missing, and there are so many heads then.
fn grows(
    rt: &impl Abort,
    alloc: Global,
    set: &mut LinkSet,
    from: usize,
    (to, heads): (usize, usize),
) -> Result<(), NoMemory> {
    assert!(rt; insert_rising(alloc, set, from, to)?);
    assert_eq!(rt; set.heads(), heads, "at {to} keys");
    Ok(())
}

// Makes room for so many keys.
fn make_room(rt: &impl Abort, set: &mut LinkSet, more: usize) -> Result<(), NoMemory>
    requires { more ≤ 16 }
{
    set.reserve(more)?;
    assert!(rt; set.spare() >= more);
    Ok(())
}

// Inserts a key with a count of steps of its own, and says whether it was missing.
fn counted_alone(set: &mut LinkSet, key: Key) -> Option<bool> {
    counted::<Brand>(set, key, Blank::new(1))
}

// Inserts one of the rising keys with a count of steps, and says whether it was missing.
fn count_one(alloc: Global, set: &mut LinkSet, n: usize) -> Result<Option<bool>, NoMemory> {
    Ok(counted_alone(set, rising_key(alloc, n)?))
}

// Inserts the first 17 of the rising keys, and makes room for one more.
fn insert_seventeen(rt: &impl Abort, alloc: Global, set: &mut LinkSet) -> Result<(), NoMemory> {
    grows(rt, alloc, set, 0, (16, 16))?;
    grows(rt, alloc, set, 16, (17, 32))?;
    assert_eq!(rt; set.len(), 17);
    make_room(rt, set, 16)
}

// The eighteenth is inserted with a count of steps.
fn takes_eighteen(rt: &impl Abort, alloc: Global, set: &mut LinkSet) -> Result<(), NoMemory> {
    insert_seventeen(rt, alloc, set)?;
    assert_eq!(rt; count_one(alloc, set, 17)?, Some(true));
    Ok(())
}

#[test]
fn seventeen_keys(rt: HostRuntime) -> Result<(), Fail> {
    let mut set = LinkSet::new(rt.alloc())?;
    takes_eighteen(&rt, rt.alloc(), &mut set)?;
    Ok(())
}

// After so many keys there are so many heads.
fn growth() -> [(usize, usize); 12] {
    [
        (16, 16),
        (17, 32),
        (32, 32),
        (33, 64),
        (64, 64),
        (65, 128),
        (129, 256),
        (257, 512),
        (513, 1024),
        (1024, 1024),
        (1025, 2048),
        (2000, 2048),
    ]
}

// The set of all 2,000 keys, made in steps.
fn all_rising(rt: &impl Abort, alloc: Global) -> Result<LinkSet, NoMemory> {
    let mut set = LinkSet::new(alloc)?;
    let mut from = 0;
    for step in growth() {
        grows(rt, alloc, &mut set, from, step)?;
        from = step.0;
    }
    Ok(set)
}

// The set of all 2,000 keys has each at its own place, no other key, and none twice.
fn has_all_rising(rt: &impl Abort, alloc: Global, set: &mut LinkSet) -> Result<(), NoMemory> {
    assert_eq!(rt; set.len(), 2000);
    assert_eq!(rt; found_rising(alloc, set, 2000)?, 2000);
    assert_eq!(rt; placed_rising(alloc, set, 2000)?, 2000);
    assert!(rt; !set.contains(&equal_key(alloc, 25, 11)?));
    assert_eq!(rt; insert_one(alloc, set, 1024)?, Some(false));
    Ok(())
}

#[test]
fn keys_of_rising_length(rt: HostRuntime) -> Result<(), Fail> {
    let mut set = all_rising(&rt, rt.alloc())?;
    has_all_rising(&rt, rt.alloc(), &mut set)?;
    Ok(())
}
