use form_key::{NoMemory, pack, unpack};
use link_set::Key;
use product_rep::{Factors, Rep};
use std::alloc::Global;
use std::test::Fail;

// The simple quaternary forms of rank 3 with four, five and six elements: sizes, codes behind the unit columns, and keys.
const FORMS: [(u8, &[u8], &[u8]); 14] = [
    (4, &[0, 1, 1], &[0x01, 0x10]),
    (4, &[1, 1, 1], &[0x11, 0x10]),
    (5, &[0, 1, 1, 0, 1, 2], &[0x01, 0x10, 0x12]),
    (5, &[0, 1, 1, 1, 0, 1], &[0x01, 0x11, 0x01]),
    (5, &[0, 1, 1, 1, 1, 2], &[0x01, 0x11, 0x12]),
    (5, &[1, 1, 1, 1, 2, 3], &[0x11, 0x11, 0x23]),
    (
        6,
        &[0, 1, 1, 0, 1, 2, 0, 1, 3],
        &[0x01, 0x10, 0x12, 0x01, 0x30],
    ),
    (
        6,
        &[0, 1, 1, 0, 1, 2, 1, 0, 1],
        &[0x01, 0x10, 0x12, 0x10, 0x10],
    ),
    (
        6,
        &[0, 1, 1, 0, 1, 2, 1, 1, 3],
        &[0x01, 0x10, 0x12, 0x11, 0x30],
    ),
    (
        6,
        &[0, 1, 1, 1, 0, 1, 1, 1, 0],
        &[0x01, 0x11, 0x01, 0x11, 0x00],
    ),
    (
        6,
        &[0, 1, 1, 1, 0, 1, 1, 1, 2],
        &[0x01, 0x11, 0x01, 0x11, 0x20],
    ),
    (
        6,
        &[0, 1, 1, 1, 0, 1, 1, 2, 0],
        &[0x01, 0x11, 0x01, 0x12, 0x00],
    ),
    (
        6,
        &[0, 1, 1, 1, 1, 2, 1, 2, 3],
        &[0x01, 0x11, 0x12, 0x12, 0x30],
    ),
    (
        6,
        &[1, 1, 1, 1, 2, 3, 1, 3, 2],
        &[0x11, 0x11, 0x23, 0x13, 0x20],
    ),
];

// Whether the codes behind the first three columns are these.
fn ends_in(rep: &Rep, codes: &[u8]) -> bool {
    let mut rest = codes;
    for j in 3..rep.size() {
        let Some(behind) = rest.strip_prefix(rep.column(j).as_slice()) else {
            return false;
        };
        rest = behind;
    }
    rest.is_empty()
}

// Whether these bytes are the key of the representation of rank 3 with these codes behind the unit columns.
fn has_key(
    alloc: Global,
    orders: &[u8],
    size: u8,
    codes: &[u8],
    bytes: &[u8],
) -> Result<bool, NoMemory> {
    if size < 3 || size > 16 || bytes.len() > 90 {
        return Ok(false);
    }
    let Some(factors) = Factors::of(orders) else {
        return Ok(false);
    };
    let Some(rep) = unpack(factors, 3, size, &Key::of(alloc, bytes)?) else {
        return Ok(false);
    };
    Ok(ends_in(&rep, codes) && pack(alloc, &rep)?.bytes() == bytes)
}

// Whether these bytes are the key of some representation of rank 3.
fn is_key(alloc: Global, orders: &[u8], size: u8, bytes: &[u8]) -> Result<bool, NoMemory> {
    if size < 3 || size > 16 || bytes.len() > 90 {
        return Ok(false);
    }
    let Some(factors) = Factors::of(orders) else {
        return Ok(false);
    };
    Ok(unpack(factors, 3, size, &Key::of(alloc, bytes)?).is_some())
}

// What is proved of a test doesn't read them.
fn forms() -> [(u8, &'static [u8], &'static [u8]); 14] {
    FORMS
}

#[test]
fn three_levels(rt: HostRuntime) -> Result<(), Fail> {
    for (size, codes, bytes) in forms() {
        assert!(rt; has_key(rt.alloc(), &[4], size, codes, bytes)?);
    }
    Ok(())
}

// Orders, sizes, codes behind the unit columns, and keys.
fn other_forms() -> [(&'static [u8], u8, &'static [u8], &'static [u8]); 3] {
    [
        (&[2], 5, &[0, 1, 1, 1, 0, 1], &[0x01, 0x11, 0x01]),
        (&[2, 3], 4, &[0, 0, 1, 1, 1, 1], &[0x00, 0x11, 0x11]),
        (&[2], 3, &[], &[]),
    ]
}

#[test]
fn one_and_two_factors(rt: HostRuntime) -> Result<(), Fail> {
    for (orders, size, codes, bytes) in other_forms() {
        assert!(rt; has_key(rt.alloc(), orders, size, codes, bytes)?);
    }
    Ok(())
}

// Orders, sizes and bytes: a key, and keys of another length, with a half that isn't 0 behind the last code, and with a code that
// isn't below its order.
fn keys_or_none() -> [(&'static [u8], u8, &'static [u8], bool); 6] {
    [
        (&[2], 5, &[0x01, 0x11, 0x01], true),
        (&[2], 5, &[0x01, 0x11], false),
        (&[2], 5, &[0x01, 0x11, 0x01, 0x00], false),
        (&[2], 4, &[0x01, 0x11], false),
        (&[2], 4, &[0x02, 0x10], false),
        (&[2, 3], 4, &[0x00, 0x11, 0x21], false),
    ]
}

#[test]
fn keys_of_no_form(rt: HostRuntime) -> Result<(), Fail> {
    for (orders, size, bytes, is_one) in keys_or_none() {
        assert_eq!(rt;
            is_key(rt.alloc(), orders, size, bytes)?,
            is_one,
            "at {bytes:?}"
        );
    }
    Ok(())
}
