// The codes of one row, one for each of three factors. Where there are fewer factors the others are GF(2), and their codes 0.
ghost use Rattle.std.specs.Prelude.{◌≡◌, ◌≢◌, ◌<◌, ◌≤◌, ◌∷◌, ◌↔◌, [], ℕ, slice_index, true};
ghost use Rattle.matroid_theory.specs.Field.{IsField, plus, times};
ghost use Rattle.form_states.specs.Codes.{AreCodes};

use field_tables::Field;

/// The codes of one row, by factor.
pub type Codes = [u8; 3];

/// Three fields.
pub type Fields = [Field; 3];

/// The laws of three fields, for the proofs of callers.
#[inline(always)]
pub fn laws(fields: &Fields)
    ensures { (f : ℕ) → f < 3 → IsField (slice_index fields.now f) }
{
    fields[0].laws();
    fields[1].laws();
    fields[2].laws();
}

/// Whether all three fields are GF(2).
#[inline(always)]
pub fn are_binary(fields: &Fields) -> bool
    ensures { result ≡ true → (f : ℕ) → f < 3 → slice_index fields.now f ≡ 2 }
{
    fields[0].order() == 2 && fields[1].order() == 2 && fields[2].order() == 2
}

/// Whether the codes of the first `count` factors are 0.
#[inline(always)]
pub fn are_zeros(count: usize, a: &Codes) -> bool
    requires { count ≤ 3 }
    ensures { (result ≡ true) ↔ ((f : ℕ) → f < count → slice_index a.now f ≡ 0) }
{
    (count < 1 || a[0] == 0) && (count < 2 || a[1] == 0) && (count < 3 || a[2] == 0)
}

/// Whether the codes of the first `count` factors are 1.
#[inline(always)]
pub fn are_ones(count: usize, a: &Codes) -> bool
    requires { count ≤ 3 }
    ensures { (result ≡ true) ↔ ((f : ℕ) → f < count → slice_index a.now f ≡ 1) }
{
    (count < 1 || a[0] == 1) && (count < 2 || a[1] == 1) && (count < 3 || a[2] == 1)
}

/// The products, factor by factor, for the first `count` factors.
#[inline(always)]
pub fn product(fields: &Fields, count: usize, a: &Codes, b: &Codes) -> Codes
    requires count { count ≤ 3 }
    requires a_codes { AreCodes fields.now a.now }
    requires b_codes { AreCodes fields.now b.now }
    ensures codes { AreCodes fields.now result }
    ensures products { (f : ℕ) → f < count → slice_index result f ≡ times (slice_index fields.now f) (slice_index a.now f) (slice_index b.now f) }
{
    let first = fields[0].mul(a[0], b[0]);
    if count < 2 {
        return [first, 0, 0];
    }
    let second = fields[1].mul(a[1], b[1]);
    if count < 3 {
        return [first, second, 0];
    }
    [first, second, fields[2].mul(a[2], b[2])]
}

/// The sums of `a` and the products of `x` and `b`, factor by factor, for the first `count` factors.
#[inline(always)]
pub fn sum_with(fields: &Fields, count: usize, a: &Codes, x: &Codes, b: &Codes) -> Codes
    requires count { count ≤ 3 }
    requires a_codes { AreCodes fields.now a.now }
    requires x_codes { AreCodes fields.now x.now }
    requires b_codes { AreCodes fields.now b.now }
    ensures codes { AreCodes fields.now result }
    ensures sums { (f : ℕ) → f < count →
        slice_index result f ≡ plus (slice_index fields.now f) (slice_index a.now f) (times (slice_index fields.now f) (slice_index x.now f) (slice_index b.now f)) }
{
    let first = fields[0].add(a[0], fields[0].mul(x[0], b[0]));
    if count < 2 {
        return [first, 0, 0];
    }
    let second = fields[1].add(a[1], fields[1].mul(x[1], b[1]));
    if count < 3 {
        return [first, second, 0];
    }
    [
        first,
        second,
        fields[2].add(a[2], fields[2].mul(x[2], b[2])),
    ]
}

/// The codes whose sums with these are 0, for the first `count` factors.
#[inline(always)]
pub fn negative(fields: &Fields, count: usize, a: &Codes) -> Codes
    requires count { count ≤ 3 }
    requires codes { AreCodes fields.now a.now }
    ensures codes { AreCodes fields.now result }
    ensures zeros { (f : ℕ) → f < count → plus (slice_index fields.now f) (slice_index a.now f) (slice_index result f) ≡ 0 }
{
    let first = fields[0].neg(a[0]);
    if count < 2 {
        return [first, 0, 0];
    }
    let second = fields[1].neg(a[1]);
    if count < 3 {
        return [first, second, 0];
    }
    [first, second, fields[2].neg(a[2])]
}

/// Codes that aren't 0. Their products with these are 1, for the first `count` factors where the code isn't 0.
#[inline(always)]
pub fn inverse(fields: &Fields, count: usize, a: &Codes) -> Codes
    requires count { count ≤ 3 }
    requires scalars { (f : ℕ) → f < 3 → 1 < slice_index fields.now f }
    requires codes { AreCodes fields.now a.now }
    ensures codes { AreCodes fields.now result }
    ensures nonzero { (f : ℕ) → f < 3 → slice_index result f ≢ 0 }
    ensures ones { (f : ℕ) → f < count → slice_index a.now f ≢ 0 → times (slice_index fields.now f) (slice_index result f) (slice_index a.now f) ≡ 1 }
{
    let first = inverse_in(fields[0], a[0]);
    if count < 2 {
        return [first, 1, 1];
    }
    let second = inverse_in(fields[1], a[1]);
    if count < 3 {
        return [first, second, 1];
    }
    [first, second, inverse_in(fields[2], a[2])]
}

/// A code that isn't 0. Its product with `a` is 1 where `a` isn't 0.
fn inverse_in(field: Field, a: u8) -> u8
    requires { a < field }
    ensures code { result < field }
    ensures nonzero { result ≢ 0 }
    ensures one { a ≢ 0 → times field result a ≡ 1 }
{
    field.laws();
    if a == 0 { 1 } else { field.inv(a) }
}
