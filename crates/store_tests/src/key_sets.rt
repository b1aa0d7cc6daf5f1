// Keys, and a set of two keys.
ghost use Rattle.std.specs.Prelude.{◌≡◌, ◌≤◌, IfOk, length};

use link_set::{Key, LinkSet, NoMemory};
use std::alloc::Global;
use std::cmp::Ordering;
use std::process::Abort;
use std::test::Fail;

/// The key of these bytes. Proofs of what calls it see no bytes.
pub fn key_of(alloc: Global, bytes: &[u8]) -> Result<Key, NoMemory>
    requires { length bytes.now ≤ 90 }
{
    Key::of(alloc, bytes)
}

// Inserts the key of this one byte, and says whether it was missing.
fn insert_byte(alloc: Global, set: &mut LinkSet, byte: u8) -> Result<Option<bool>, NoMemory> {
    Ok(set.insert(key_of(alloc, &[byte])?).ok())
}

// Of two keys, one of them twice, the set has two.
fn takes_each_key_once(rt: &impl Abort, alloc: Global, set: &mut LinkSet) -> Result<(), Fail> {
    assert_eq!(rt; insert_byte(alloc, set, 1)?, Some(true));
    assert_eq!(rt; insert_byte(alloc, set, 2)?, Some(true));
    assert_eq!(rt; insert_byte(alloc, set, 1)?, Some(false));
    assert_eq!(rt; set.len(), 2);
    assert_eq!(rt; set.get(0).ok_or("no key")?.bytes(), [1].as_slice());
    Ok(())
}

#[test]
fn one_key_twice(rt: HostRuntime) -> Result<(), Fail> {
    let mut set = LinkSet::new(rt.alloc())?;
    takes_each_key_once(&rt, rt.alloc(), &mut set)
}

// A key of these bytes has them, and so has a copy of it.
fn has_its_bytes(rt: &impl Abort, alloc: Global, bytes: &[u8]) -> Result<(), NoMemory>
    requires { length bytes.now ≤ 90 }
{
    let key = Key::of(alloc, bytes)?;
    assert_eq!(rt; key.bytes(), bytes);
    assert_eq!(rt; key.copy()?.bytes(), bytes);
    Ok(())
}

/// So many bytes, each of them this one.
pub fn equal_bytes(alloc: Global, byte: u8, count: usize) -> Result<Vec<u8>, NoMemory>
    ensures { IfOk result (λ bytes. length bytes.items ≡ count) }
{
    vec![in alloc; byte; count]
}

#[test]
fn keys_of_65_bytes(rt: HostRuntime) -> Result<(), Fail> {
    let bytes = equal_bytes(rt.alloc(), 7, 65)?;
    has_its_bytes(&rt, rt.alloc(), &bytes)?;
    Ok(())
}

// Which of 16 stripes the key of these bytes belongs to.
fn stripe_of_16(alloc: Global, bytes: &[u8]) -> Result<usize, NoMemory>
    requires { length bytes.now ≤ 90 }
{
    Ok(key_of(alloc, bytes)?.stripe(16))
}

// The order of two keys.
fn order_of(alloc: Global, left: &[u8], right: &[u8]) -> Result<Ordering, NoMemory>
    requires left { length left.now ≤ 90 }
    requires right { length right.now ≤ 90 }
{
    let left = key_of(alloc, left)?;
    Ok(left.cmp(&key_of(alloc, right)?))
}

#[test]
fn stripe_and_order(rt: HostRuntime) -> Result<(), Fail> {
    let alloc = rt.alloc();
    assert_eq!(rt; stripe_of_16(alloc, &[0x01, 0x11, 0x01])?, 1);
    assert_eq!(rt;
        order_of(alloc, &[0x01, 0x11, 0x01], &[0x01, 0x11])?,
        Ordering::Greater
    );
    assert_eq!(rt;
        order_of(alloc, &[0x01, 0x11, 0x01], &[0x10])?,
        Ordering::Less
    );
    Ok(())
}
