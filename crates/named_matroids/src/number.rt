//! Numbers.
ghost use Rattle.std.specs.Prelude.{◌≡◌, ◌≤◌, ◌<◌, ◌^◌, ◌==◌, ◌++◌, ℕ, length, codes, position, MatchOption, decimal};
ghost use Rattle.std.specs.Str.Parse.{AllDigits, digits_value};
ghost use Rattle.formats.specs.Statement.{IsNumber};

/// The number that a word spells: at most nine digits, of which the first is `0` in `0` alone.
pub fn number_of(word: &[u8]) -> Option<u32>
    ensures { MatchOption result
        ((n : ℕ) → IsNumber n → word.now ≡ decimal n → ⊥)
        (λ n. IsNumber n × (word.now ≡ decimal n)) }
{
    if word.is_empty() {
        return None;
    }
    if word.len() > 9 {
        return None;
    }
    if word.len() > 1 && word[0] == b'0' {
        return None;
    }
    value_of(word)
}

/// The two numbers that a text spells, with a comma between them.
pub fn numbers_of(text: &[u8]) -> Option<(u32, u32)>
    ensures { MatchOption result
        ((m n : ℕ) → IsNumber m → IsNumber n → decimal m ++ (codes "," ++ decimal n) ≡ text.now → ⊥)
        (λ pair. IsNumber pair.0 × IsNumber pair.1 × (decimal pair.0 ++ (codes "," ++ decimal pair.1) ≡ text.now)) }
{
    let comma = comma_in(text)?;
    let first = number_of(&text[..comma])?;
    let second = number_of(&text[comma + 1..])?;
    Some((first, second))
}

/// Where the first comma is.
fn comma_in(text: &[u8]) -> Option<usize>
    ensures { result ≡ position (λ byte. byte == 44) text.now }
{
    text.iter().position(|byte| *byte == b',')
}

/// The value of the digits, where there are no others.
fn value_of(digits: &[u8]) -> Option<u32>
    requires { length digits.now ≤ 9 }
    ensures { MatchOption result
        (AllDigits 10 digits.now → ⊥)
        (λ n. AllDigits 10 digits.now × (n ≡ digits_value 10 digits.now)) }
{
    let mut value = 0;
    for digit in digits {
        if !digit.is_ascii_digit() {
            return None;
        }
        value = 10 * value + u32::from(*digit - b'0');
    }
    Some(value)
}
