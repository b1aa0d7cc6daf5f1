ghost use Rattle.std.specs.Prelude.{◌≡◌, ℕ, List, MatchOption, decimal};
ghost use Rattle.formats.specs.Lines.{words_of};
ghost use Rattle.request_lines.specs.Spellings.{factor_words};
ghost use Rattle.request_lines.specs.Versions.{version_number, IsOrderIn, AreFactorsIn};

use crate::cut::next_word;
use crate::version::Version;
use arrayvec::ArrayVec;
use field_tables::Field;
use named_matroids::number_of;
use product_rep::Factors;

/// The order of a field that a word spells, in a text of the version.
pub fn order_of(version: Version, word: &[u8]) -> Option<u8>
    ensures { MatchOption result
        ((q : ℕ) → IsOrderIn (version_number version) q → word.now ≡ decimal q → ⊥)
        (λ q. IsOrderIn (version_number version) q × (word.now ≡ decimal q)) }
{
    let number = number_of(word)?;
    if number > u32::from(version.greatest_order()) {
        return None;
    }
    let field = Field::of(number as u8)?;
    Some(field.order())
}

/// The factors whose orders the words of `rest` spell, with `x` between two, in a text of the version.
pub fn factors_of(version: Version, rest: &[u8]) -> Option<Factors>
    ensures { MatchOption result
        ((orders : List ℕ) → AreFactorsIn (version_number version) orders → words_of rest.now ≡ factor_words orders → ⊥)
        (λ factors. AreFactorsIn (version_number version) factors × (words_of rest.now ≡ factor_words factors)) }
{
    let mut orders: ArrayVec<u8, 3> = ArrayVec::new();
    let mut left = rest;
    loop {
        let (word, after) = next_word(left)?;
        let Ok(()) = orders.try_push(order_of(version, word)?) else {
            return None;
        };
        match next_word(after) {
            None => return Factors::of(orders.as_slice()),
            Some((b"x", next)) => left = next,
            Some(_) => return None,
        }
    }
}
