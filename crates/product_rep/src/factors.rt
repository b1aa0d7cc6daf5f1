ghost use Rattle.std.specs.Prelude.{◌≡◌, ◌<◌, ◌↔◌, length, IsTrue, IsSome, IfSome, slice_index};
ghost use Rattle.matroid_theory.specs.Field.{IsFactors};

use arrayvec::ArrayVec;
use field_tables::Field;
use small_lists::list_of;
use std::marker::Model;

/// One to three fields, the factors of a product. Contracts see the list of their orders.
#[derive(Drop)]
pub struct Factors {
    orders: ArrayVec<u8, 3>,
}

impl Model for Factors {
    ghost use Rattle.std.specs.Prelude.{ℕ, List};
    ghost use Rattle.matroid_theory.specs.Field.{IsFactors};

    ghost Value = { List ℕ };

    ghost view = { λ factors. factors.orders.items };

    ghost invariant = { λ factors. IsFactors factors.orders.items };
}

impl Factors {
    /// The fields of these orders; none where there are not one to three, or one is the order of no field.
    pub fn of(orders: &[u8]) -> Option<Factors>
        ensures found { IsSome result ↔ IsFactors orders.now }
        ensures orders { IfSome result (λ factors. factors ≡ orders.now) }
    {
        if orders.is_empty() || orders.len() > 3 {
            return None;
        }
        let mut list = ArrayVec::new();
        for order in orders {
            if Field::of(*order).is_none() {
                return None;
            }
            list.push(*order);
        }
        Some(Factors { orders: list })
    }

    /// What the type keeps, for the proofs of callers: one to three orders of fields.
    pub fn laws(&self)
        ensures { IsFactors self.now }
    {
        let _orders = &self.orders;
    }

    /// How many factors there are, from 1 to 3.
    pub fn count(&self) -> usize
        ensures count { result ≡ length self.now }
        ensures are_factors { IsFactors self.now }
    {
        self.orders.len()
    }

    /// The field of factor `i`, numbered from 0.
    pub fn field(&self, i: usize) -> Field
        requires { i < length self.now }
        ensures { result ≡ slice_index self.now i }
    {
        match Field::of(self.orders[i]) {
            Some(field) => field,
            None => unreachable!(),
        }
    }

    /// Whether these are the same factors in the same order.
    pub fn same(&self, other: &Factors) -> bool
        ensures { IsTrue result ↔ (self.now ≡ other.now) }
    {
        self.orders.as_slice() == other.orders.as_slice()
    }

    /// The same factors.
    pub fn copy(&self) -> Factors
        ensures { result ≡ self.now }
    {
        Factors {
            orders: list_of(self.orders.as_slice()),
        }
    }
}
