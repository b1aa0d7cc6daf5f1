// Levels that are opened, offered to and closed.
ghost use Rattle.std.specs.Prelude.{◌≡◌, ◌<◌, ◌≤◌, ◌∷◌, ◌++◌, [], IfOk, length, Some};
ghost use Rattle.std.specs.List.{All};
ghost use Rattle.link_set.specs.Hash.{stripe_of};

use class_store::{ClassStore, Closed, Key, KeyBatch, NoMemory, OpenLevel, Pass, Reply};
use std::alloc::Global;
use std::sync::Wait;
use std::test::*;

// Offers the key of this one byte, and says whether it was new.
fn is_new<R: Wait + Sync>(
    rt: &R,
    alloc: Global,
    level: &OpenLevel,
    pass: &mut Pass,
    byte: u8,
) -> Option<bool>
    requires { pass.old.level ≡ level.now.level }
    ensures { (pass.new.level ≡ pass.old.level) × (pass.new.number ≡ pass.old.number) }
{
    let Ok(key) = Key::of(alloc, &[byte]) else {
        return None;
    };
    match level.offer(rt, pass, key) {
        Ok(Reply::New) => Some(true),
        Ok(Reply::Again) => Some(false),
        Err(_) => None,
    }
}

// Two passes offer one key by turns, twice.
fn by_turns<R: Wait + Sync>(
    rt: &R,
    alloc: Global,
    level: &OpenLevel,
    first: &mut Pass,
    second: &mut Pass,
) -> [Option<bool>; 4]
    requires first { first.old.level ≡ level.now.level }
    requires second { second.old.level ≡ level.now.level }
    ensures first { (first.new.level ≡ first.old.level) × (first.new.number ≡ first.old.number) }
    ensures second { (second.new.level ≡ second.old.level) × (second.new.number ≡ second.old.number) }
{
    let before = is_new(rt, alloc, level, first, 1);
    let after = is_new(rt, alloc, level, second, 1);
    let once_more = is_new(rt, alloc, level, first, 1);
    let last = is_new(rt, alloc, level, second, 1);
    [before, after, once_more, last]
}

// A level of two passes that offer one key by turns, and what they are told.
fn told_by_turns<R: Wait + Sync>(
    rt: &R,
    alloc: Global,
    store: &ClassStore,
) -> Result<([Option<bool>; 4], Closed), NoMemory>
    ensures { IfOk result (λ r. length r.1 ≡ store.now.stripes) }
{
    let (level, mut passes) = store.open_level(alloc, 2)?;
    let Some(mut second) = passes.pop() else {
        unreachable!()
    };
    let Some(mut first) = passes.pop() else {
        unreachable!()
    };
    let told = by_turns(rt, alloc, &level, &mut first, &mut second);
    passes.push(first)?;
    passes.push(second)?;
    Ok((told, level.close(rt, passes)))
}

#[test]
fn one_of_two_passes_is_told_new(rt: HostRuntime) -> Result<(), Fail> {
    let alloc = rt.alloc();
    let mut store = ClassStore::new(alloc, 1)?;
    let (told, closed) = told_by_turns(&rt, alloc, &store)?;
    assert!(rt;
        told == [Some(true), Some(false), Some(false), Some(false)],
        "the first alone is told New"
    );
    assert_eq!(rt; closed.entries(0), 4);
    let rising = closed.rising(alloc)?;
    assert_eq!(rt; rising.len(), 1);
    let is_the_key = match rising.get(0) {
        Some(key) => key.bytes() == [1].as_slice(),
        None => false,
    };
    assert!(rt; is_the_key, "the key that was offered");
    assert!(rt; rising.get(1).is_none(), "no other key");
    store.keep(closed);
    assert_eq!(rt; store.last().entries(0), 4);
    Ok(())
}

// A batch of keys of one byte each.
fn batch_of(alloc: Global, bytes: &[u8]) -> Result<KeyBatch, NoMemory>
    requires { length bytes.now ≤ 16 }
{
    let mut keys = KeyBatch::new(alloc);
    for byte in bytes {
        keys.push(Key::of(alloc, &[*byte])?);
    }
    Ok(keys)
}

// Offers a batch to a level of one stripe, and says how many keys were new.
fn news_of<R: Wait + Sync>(
    rt: &R,
    level: &OpenLevel,
    pass: &mut Pass,
    keys: KeyBatch,
) -> Option<u64>
    requires level { pass.old.level ≡ level.now.level }
    requires one { length level.now.level.tables ≡ 1 }
    ensures { (pass.new.level ≡ pass.old.level) × (pass.new.number ≡ pass.old.number) }
{
    level.offer_batch(rt, pass, 0, keys).ok()
}

// One pass offers three batches, the second without keys.
fn three_batches<R: Wait + Sync>(
    rt: &R,
    level: &OpenLevel,
    pass: &mut Pass,
    batches: (KeyBatch, KeyBatch, KeyBatch),
) -> [Option<u64>; 3]
    requires level { pass.old.level ≡ level.now.level }
    requires one { length level.now.level.tables ≡ 1 }
    ensures { (pass.new.level ≡ pass.old.level) × (pass.new.number ≡ pass.old.number) }
{
    let first = news_of(rt, level, pass, batches.0);
    let none = news_of(rt, level, pass, batches.1);
    let last = news_of(rt, level, pass, batches.2);
    [first, none, last]
}

// A level of one pass that offers three batches, and how many of the keys of each were new.
fn told_in_batches<R: Wait + Sync>(
    rt: &R,
    alloc: Global,
    store: &ClassStore,
) -> Result<([Option<u64>; 3], Closed), NoMemory>
    requires { store.now.stripes ≡ 1 }
    ensures { IfOk result (λ r. length r.1 ≡ 1) }
{
    let (level, mut passes) = store.open_level(alloc, 1)?;
    let Some(mut pass) = passes.pop() else {
        unreachable!()
    };
    let batches = (
        batch_of(alloc, &[1, 1, 2])?,
        batch_of(alloc, &[])?,
        batch_of(alloc, &[2])?,
    );
    let told = three_batches(rt, &level, &mut pass, batches);
    passes.push(pass)?;
    Ok((told, level.close(rt, passes)))
}

#[test]
fn batches_are_offered_in_their_order(rt: HostRuntime) -> Result<(), Fail> {
    let alloc = rt.alloc();
    let store = ClassStore::new(alloc, 1)?;
    let (told, closed) = told_in_batches(&rt, alloc, &store)?;
    assert!(rt;
        told == [Some(2), Some(0), Some(0)],
        "two keys are new, and only once"
    );
    assert_eq!(rt; closed.entries(0), 4);
    assert_eq!(rt; closed.rising(alloc)?.len(), 2);
    Ok(())
}

// A store of so many stripes.
fn store_of(alloc: Global, stripes: usize) -> Result<ClassStore, NoMemory>
    requires some { 0 < stripes }
    requires few { stripes ≤ 64 }
    ensures { IfOk result (λ store. store.stripes ≡ stripes) }
{
    ClassStore::new(alloc, stripes)
}

// A level of so many passes that is opened and closed: how many stripes and how many passes it had, and what is left.
fn opened_and_closed<R: Wait + Sync>(
    rt: &R,
    alloc: Global,
    store: &ClassStore,
    passes: usize,
) -> Result<(usize, usize, Closed), NoMemory>
    requires some { 0 < passes }
    requires few { passes ≤ 64 }
    ensures { IfOk result (λ r. length r.2 ≡ store.now.stripes) }
{
    let (level, all) = store.open_level(alloc, passes)?;
    let stripes = level.stripes();
    let count = all.len();
    Ok((stripes, count, level.close(rt, all)))
}

#[test]
fn the_greatest_level_is_opened_and_closed(rt: HostRuntime) -> Result<(), Fail> {
    let alloc = rt.alloc();
    let mut store = store_of(alloc, 64)?;
    let (stripes, passes, closed) = opened_and_closed(&rt, alloc, &store, 64)?;
    assert_eq!(rt; stripes, 64);
    assert_eq!(rt; passes, 64);
    assert_eq!(rt; closed.rising(alloc)?.len(), 0);
    store.keep(closed);
    assert_eq!(rt; store.last().entries(63), 0);
    Ok(())
}
