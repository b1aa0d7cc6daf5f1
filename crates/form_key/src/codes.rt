// Codes, and bytes that hold two of them each.
ghost use Rattle.std.specs.Prelude.{◌≡◌, ◌+◌, ◌*◌, ◌<◌, ◌≤◌, ℕ, length, slice_index};
ghost use Rattle.form_key.specs.Packing.{paired};
ghost use Rattle.form_key.specs.Codes.{half_at, AreHalves};

use arrayvec::ArrayVec;

/// The codes of at most 15 columns of at most 18 codes.
pub(crate) type Codes = ArrayVec<u8, 180>;

/// Their bytes.
pub(crate) type Bytes = ArrayVec<u8, 90>;

/// Two codes to a byte.
pub(crate) fn pair_up(codes: &[u8]) -> Bytes
    requires few { length codes.now ≤ 180 }
    requires halves { AreHalves codes.now }
    ensures { result.items ≡ paired codes.now }
{
    let mut bytes = ArrayVec::new();
    for at in 0..(codes.len() + 1) / 2 {
        bytes.push(pair(codes, at));
    }
    bytes
}

/// The byte of codes `2 * at` and `2 * at + 1`.
fn pair(codes: &[u8], at: usize) -> u8
    requires at { at + at < length codes.now }
    requires halves { AreHalves codes.now }
    ensures { result ≡ slice_index codes.now (at + at) * 16 + slice_index codes.now (at + at + 1) }
{
    let high = codes[at + at];
    let low = codes.get(at + at + 1).copied().unwrap_or(0);
    high * 16 + low
}

/// The first `count` halves of bytes; 0 behind the last byte.
pub(crate) fn take_apart(bytes: &[u8], count: usize) -> Codes
    requires { count ≤ 180 }
    ensures count { length result.items ≡ count }
    ensures codes { (k : ℕ) → k < count → slice_index result.items k ≡ half_at bytes.now k }
    ensures halves { AreHalves result.items }
{
    let mut codes = ArrayVec::new();
    for place in 0..count {
        codes.push(half(bytes, place));
    }
    codes
}

/// Half a byte; 0 behind the last byte.
fn half(bytes: &[u8], place: usize) -> u8
    ensures code { result ≡ half_at bytes.now place }
    ensures half { result < 16 }
{
    let byte = bytes.get(place / 2).copied().unwrap_or(0);
    if place % 2 == 0 { byte / 16 } else { byte % 16 }
}
