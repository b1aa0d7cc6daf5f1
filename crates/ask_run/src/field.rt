// The factors of a representation, as words spell them.
ghost use Rattle.std.specs.Prelude.{◌≡◌, ◌≢◌, ◌<◌, ◌≤◌, ◌+◌, ◌*◌, ◌-◌, ℕ, List, MatchOption, decimal, codes, slice_index, length};
ghost use Rattle.matroid_theory.specs.Field.{IsOrder, IsFactors};
ghost use Rattle.ask_formats.specs.Places.{word_at, IsOrderCount, AreReadAsFactors};
ghost use Rattle.ask_run.specs.Texts.{texts_of};

use crate::word::{stands_at, text_at};
use arrayvec::ArrayVec;
use field_tables::Field;
use named_matroids::number_of;
use product_rep::Factors;

/// The field whose order a word spells.
pub fn field_of(word: &[u8]) -> Option<Field>
    ensures { MatchOption result
        ((q : ℕ) → IsOrder q → word.now ≡ decimal q → ⊥)
        (λ q. IsOrder q × (word.now ≡ decimal q)) }
{
    let number = number_of(word)?;
    if number > 13 {
        return None;
    }
    Field::of(number as u8)
}

/// The order of a field that a word spells.
fn order_of(word: &[u8]) -> Option<u8>
    ensures { MatchOption result
        ((q : ℕ) → IsOrder q → word.now ≡ decimal q → ⊥)
        (λ q. IsOrder q × (word.now ≡ decimal q)) }
{
    let field = field_of(word)?;
    Some(field.order())
}

/// How many orders the words begin with: one, and one more, up to three, for each `x` behind an order.
fn order_count(words: &[String]) -> usize
    ensures { IsOrderCount (texts_of words.now) result }
{
    if !stands_at(words, 1, b"x") {
        return 1;
    }
    if !stands_at(words, 3, b"x") {
        return 2;
    }
    3
}

/// The factors whose orders the words begin with.
pub fn factors_in(words: &[String]) -> Option<Factors>
    ensures { MatchOption result
        ((orders : List ℕ) → IsFactors orders → AreReadAsFactors (texts_of words.now) orders → ⊥)
        (AreReadAsFactors (texts_of words.now)) }
{
    let count = order_count(words);
    let mut orders: ArrayVec<u8, 3> = ArrayVec::new();
    for factor in 0..count {
        orders.push(order_of(text_at(words, factor * 2))?);
    }
    Factors::of(orders.as_slice())
}
