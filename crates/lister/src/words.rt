//! Columns as words.
ghost use Rattle.std.specs.Prelude.{◌≡◌, ◌+◌, ◌*◌, ◌≤◌, ◌<◌, ◌++◌, length, map};
ghost use Rattle.std.specs.List.{AllByRecursion, join_with_byte};
ghost use Rattle.formats.specs.Statement.{entry_letter, column_word as word_of_codes};

use crate::line::{Line, push_bytes};
use arrayvec::ArrayVec;
use field_tables::Column;

/// The letter of a code: a digit, or from 10 on a letter from `a` on.
fn letter(code: u8) -> u8
    requires { code < 13 }
    ensures { result ≡ entry_letter code }
{
    if code < 10 {
        b'0' + code
    } else {
        b'a' + (code - 10)
    }
}

/// The word that spells a column: a letter for each code.
pub fn column_word(column: &Column) -> Column
    requires { AllByRecursion (λ code. code < 13) column.now.items }
    ensures { result.items ≡ word_of_codes column.now.items }
{
    let mut word = ArrayVec::new();
    for code in column.as_slice() {
        word.push(letter(*code));
    }
    word
}

/// Appends words, with one space between two.
pub fn push_words(line: &mut Line, words: &[Column])
    requires { length line.old.items + 7 * length words.now ≤ 384 }
    ensures bytes { line.new.items ≡ line.old.items ++ join_with_byte 32 (map (λ word. word.items) words.now) }
    ensures short { length line.new.items ≤ length line.old.items + 7 * length words.now }
{
    let mut rest = words;
    while let [word, next @ ..] = rest {
        push_bytes(line, word.as_slice());
        if !next.is_empty() {
            line.push(b' ');
        }
        rest = next;
    }
}
