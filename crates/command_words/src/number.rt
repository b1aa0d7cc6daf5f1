//! The numbers of the options.
ghost use Rattle.std.specs.Prelude.{◌≡◌, ◌≢◌, ◌<◌, ◌≤◌, decimal, option_map, List, ℕ, MatchOption, Some, None};

use named_matroids::number_of;

/// The number of a text that may be missing; None where there is a text and it is no number from `least` to `most`.
pub fn number_if(text: Option<&str>, least: u32, most: u32) -> Option<Option<u32>>
    requires { most < 100 }
    ensures { MatchOption result
        ((t : List ℕ) × (option_map (λ s. s.now) text.entry ≡ Some t)
        × ((n : ℕ) → least ≤ n → n ≤ most → t ≢ decimal n))
        (λ o. MatchOption o (option_map (λ s. s.now) text.entry ≡ None)
        (λ n. (least ≤ n) × (n ≤ most) × (option_map (λ s. s.now) text.entry ≡ Some (decimal n)))) }
{
    match text {
        None => Some(None),
        Some(text) => match number_in(text, least, most) {
            None => None,
            Some(n) => Some(Some(n)),
        },
    }
}

// The number of a text, from `least` to `most`; None where the text is no such number.
fn number_in(text: &str, least: u32, most: u32) -> Option<u32>
    requires { most < 100 }
    ensures { MatchOption result
        ((n : ℕ) → least ≤ n → n ≤ most → text.now ≢ decimal n)
        (λ n. (least ≤ n) × (n ≤ most) × (text.now ≡ decimal n)) }
{
    match number_of(text.as_bytes()) {
        None => None,
        Some(n) => {
            if n < least {
                return None;
            }
            if n > most {
                return None;
            }
            Some(n)
        }
    }
}
