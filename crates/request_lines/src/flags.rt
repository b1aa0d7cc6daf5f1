//! The filters that a line names.
ghost use Rattle.std.specs.Prelude.{◌≡◌, MatchOption};
ghost use Rattle.request_lines.specs.Spellings.{flag_word};
ghost use Rattle.request_lines.specs.declared.flags.Flag.{Flag};

use crate::line::NamedMinor;

/// A filter without a minor.
#[derive(Clone, Copy)]
pub enum Flag {
    Connected,
    Three,
    Cosimple,
    Distinct,
}

/// What a line with a filter says.
#[derive(Drop)]
pub enum Filter {
    Flag(Flag),
    Has(NamedMinor),
}

/// The filter that a word spells.
pub fn flag_of(word: &[u8]) -> Option<Flag>
    ensures { MatchOption result
        ((flag : Flag) → word.now ≡ flag_word flag → ⊥)
        (λ flag. word.now ≡ flag_word flag) }
{
    match word {
        b"connected" => Some(Flag::Connected),
        b"3conn" => Some(Flag::Three),
        b"cosimple" => Some(Flag::Cosimple),
        b"distinct" => Some(Flag::Distinct),
        _ => None,
    }
}
