//! The versions of the request language.
ghost use Rattle.std.specs.Prelude.{◌≡◌};
ghost use Rattle.formats.specs.Lines.{words_of};
ghost use Rattle.formats.specs.Request.{says_two as says_two_lem, version_of as version_of_lem};
ghost use Rattle.formats.specs.Statement.{most_order};
ghost use Rattle.request_lines.specs.Versions.{version_number};

use crate::cut::{is_only_word, is_skipped_line, next_line, next_word};

/// A version of the request language.
#[derive(Clone, Copy, Debug, PartialEq, Eq)]
pub enum Version {
    /// Fields of at most nine elements.
    One,
    /// Also the fields of 11 and 13 elements. A text says so in its first line that isn't skipped.
    Two,
}

impl Version {
    /// 1 or 2.
    pub fn number(self) -> u8
        ensures { result ≡ version_number self }
    {
        match self {
            Version::One => 1,
            Version::Two => 2,
        }
    }

    /// The greatest order of a field: 9 in version 1, 13 in version 2.
    pub fn greatest_order(self) -> u8
        ensures { result ≡ most_order (version_number self) }
    {
        match self {
            Version::One => 9,
            Version::Two => 13,
        }
    }
}

/// The version of a text: 2 where its first line that isn't skipped is `version 2`, and 1 otherwise.
pub fn version_of(text: &[u8]) -> Version
    ensures { version_number result ≡ version_of_lem text.now }
{
    let mut rest = text;
    while !rest.is_empty() {
        let (line, after) = next_line(rest);
        if !is_skipped_line(line) {
            return if says_two(line) {
                Version::Two
            } else {
                Version::One
            };
        }
        rest = after;
    }
    Version::One
}

/// Whether a line is `version 2`.
fn says_two(line: &[u8]) -> bool
    ensures { result ≡ says_two_lem (words_of line.now) }
{
    match next_word(line) {
        Some((b"version", rest)) => is_only_word(rest, b"2"),
        _ => false,
    }
}
