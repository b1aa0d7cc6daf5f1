// Lists of numbers of columns.
ghost use Rattle.std.specs.Prelude.{IsTrue, ◌↔◌, ◌≡◌, ◌<◌, ◌≤◌, [], ◌∷◌, ◌++◌, length, slice_index};
ghost use Rattle.std.specs.Cmp.Lexicographic.{slice_cmp};
ghost use Rattle.std.specs.Ordering.{nat_cmp};
ghost use Rattle.std.specs.declared.cmp.Ordering.TheVariants.{Less};

use std::cmp::Ordering;
use std::marker::Model;

/// The numbers of at most 16 columns, in order. Contracts see the list of numbers. What stands after the last one doesn't count.
#[derive(Drop)]
pub struct Numbers {
    numbers: [u128; 16],
    count: usize,
}

impl Model for Numbers {
    ghost use Rattle.std.specs.Prelude.{ℕ, List, ◌≤◌, take};

    ghost Value = { List ℕ };

    ghost view = { λ s. take s.count s.numbers };

    ghost invariant = { λ s. s.count ≤ 16 };
}

impl Numbers {
    /// No number.
    pub fn new() -> Numbers
        ensures { result ≡ [] }
    {
        Numbers {
            numbers: [0; 16],
            count: 0,
        }
    }

    /// How many there are.
    pub fn len(&self) -> usize
        ensures count { result ≡ length self.now }
        ensures few { length self.now ≤ 16 }
    {
        self.count
    }

    /// The number at this place.
    pub fn get(&self, place: usize) -> u128
        requires { place < length self.now }
        ensures { result ≡ slice_index self.now place }
    {
        self.as_slice()[place]
    }

    /// The same numbers.
    pub fn copy(&self) -> Numbers
        ensures { result ≡ self.now }
    {
        Numbers {
            numbers: self.numbers,
            count: self.count,
        }
    }

    /// The numbers with one more at the end.
    pub fn followed_by(&self, last: u128) -> Numbers
        requires { length self.now < 16 }
        ensures { result ≡ self.now ++ last ∷ [] }
    {
        let mut numbers = self.numbers;
        numbers[self.count] = last;
        Numbers {
            numbers,
            count: self.count + 1,
        }
    }

    /// Whether the numbers come before others, compared from the first on.
    pub fn is_below(&self, other: &Numbers) -> bool
        ensures { IsTrue result ↔ (slice_cmp nat_cmp self.now other.now ≡ Less) }
    {
        self.as_slice().cmp(other.as_slice()) == Ordering::Less
    }

    /// The numbers.
    fn as_slice(&self) -> &[u128]
        ensures { result.now ≡ self.now }
    {
        &self.numbers[..self.count]
    }
}
