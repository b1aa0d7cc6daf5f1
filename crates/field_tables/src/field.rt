ghost use Rattle.std.specs.Prelude.{◌≡◌, ◌≢◌, ◌<◌, ◌≤◌, ◌↔◌, ℕ, length, slice_index, IsSome, IfSome};
ghost use Rattle.matroid_theory.specs.Field.{IsOrder, IsField, degree, plus, times, negative, inverse, frobenius};
ghost use Rattle.matroid_theory.specs.Matrix.{sum_below};

use crate::tables::{DEGREES, INVERSES, NEGATIVES, POWERS, PRODUCTS, SUMS};
use std::marker::Model;

/// The field GF(q), for q one of 2, 3, 4, 5, 7, 8, 9, 11 and 13. Contracts see its order.
///
/// Its elements are the codes below q: code 0 is zero and code 1 is one. The digits of a code in base p, for q = p^k and
/// lowest first, are the coefficients of a polynomial over the integers modulo p; the moduli are `x^2+x+1` for 4,
/// `x^3+x+1` for 8 and `x^2+1` for 9.
#[derive(Clone, Copy, Debug, PartialEq, Eq)]
pub struct Field {
    order: u8,
}

impl Model for Field {
    ghost use Rattle.std.specs.Prelude.{ℕ};
    ghost use Rattle.matroid_theory.specs.Field.{IsOrder};

    ghost Value = { ℕ };

    ghost view = { λ field. field.order };

    ghost invariant = { λ field. IsOrder field.order };

    ghost inverse = { λ q. record { order = q } };
}

const ORDERS: [u8; 9] = [2, 3, 4, 5, 7, 8, 9, 11, 13];

impl Field {
    /// The field of this order; `None` exactly where q isn't 2, 3, 4, 5, 7, 8, 9, 11 or 13.
    pub fn of(q: u8) -> Option<Field>
        ensures found { IsSome result ↔ IsOrder q }
        ensures order { IfSome result (λ field. field ≡ q) }
    {
        if ORDERS.contains(&q) {
            Some(Field { order: q })
        } else {
            None
        }
    }

    /// How many elements the field has: the codes below this number.
    pub fn order(self) -> u8
        ensures order { result ≡ self }
        ensures is_order { IsOrder result }
    {
        self.order
    }

    /// The laws of a field, and of its Frobenius map, for the proofs of callers.
    pub fn laws(self)
        ensures { IsField self }
    {
        let _order = self.order;
    }

    /// The k of the order p^k: 1, 2 or 3.
    pub fn degree(self) -> u8
        ensures { result ≡ degree self }
    {
        DEGREES[self.order as usize]
    }

    /// The sum of two codes.
    pub fn add(self, a: u8, b: u8) -> u8
        requires a_code { a < self }
        requires b_code { b < self }
        ensures sum { result ≡ plus self a b }
        ensures code { result < self }
    {
        SUMS[self.order as usize][a as usize][b as usize]
    }

    /// The product of two codes.
    pub fn mul(self, a: u8, b: u8) -> u8
        requires a_code { a < self }
        requires b_code { b < self }
        ensures product { result ≡ times self a b }
        ensures code { result < self }
    {
        PRODUCTS[self.order as usize][a as usize][b as usize]
    }

    /// The code whose sum with `a` is 0.
    pub fn neg(self, a: u8) -> u8
        requires { a < self }
        ensures negative { result ≡ negative self a }
        ensures zero { plus self a result ≡ 0 }
        ensures code { result < self }
    {
        NEGATIVES[self.order as usize][a as usize]
    }

    /// The code whose product with `a`, which isn't 0, is 1.
    pub fn inv(self, a: u8) -> u8
        requires a_code { a < self }
        requires nonzero { a ≢ 0 }
        ensures inverse { result ≡ inverse self a }
        ensures one { times self a result ≡ 1 }
        ensures code { result < self }
    {
        INVERSES[self.order as usize][a as usize]
    }

    /// The sum of the products of the codes at the same places, as far as the second list goes.
    pub fn sum_of_products(self, left: &[u8], right: &[u8]) -> u8
        requires count { length right.now ≤ length left.now }
        requires left_codes { (k : ℕ) → k < length right.now → slice_index left.now k < self }
        requires right_codes { (k : ℕ) → k < length right.now → slice_index right.now k < self }
        ensures sum { result ≡ sum_below self (length right.now) (λ k. times self (slice_index left.now k) (slice_index right.now k)) }
        ensures code { result < self }
    {
        self.laws();
        let mut sum = 0;
        for k in 0..right.len() {
            sum = self.add(sum, self.mul(left[k], right[k]));
        }
        sum
    }

    /// The Frobenius map: `a` to the power of the characteristic, the p of the order p^k.
    pub fn frobenius(self, a: u8) -> u8
        requires { a < self }
        ensures power { result ≡ frobenius self a }
        ensures code { result < self }
    {
        POWERS[self.order as usize][a as usize]
    }
}
