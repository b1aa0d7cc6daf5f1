//! Matrices as lines spell them.
ghost use Rattle.std.specs.Prelude.{◌≡◌, ◌<◌, ◌≤◌, ℕ, List, length, MatchOption};
ghost use Rattle.matroid_theory.specs.Field.{IsOrder};
ghost use Rattle.formats.specs.Lines.{words_of};
ghost use Rattle.formats.specs.Statement.{ByMatrix, IsMatrix, column_word, entry_letter, most_order};
ghost use Rattle.request_lines.specs.Said.{IsNamed};
ghost use Rattle.request_lines.specs.Matrices.{AreCodes, AreColumns, column_words, matrix_words, IsRead};
ghost use Rattle.request_lines.specs.Versions.{version_number};

use crate::cut::next_word;
use crate::field_line::order_of;
use crate::line::NamedMinor;
use crate::version::Version;
use arrayvec::ArrayVec;
use field_tables::Column;
use named_matroids::matrix_item;

/// Columns as a line spells them.
#[derive(Drop)]
pub enum Columns {
    /// At most 10.
    Few(ArrayVec<Column, 10>),
    /// More.
    Many,
}

/// The matrix that the words of `rest`, which follow the word `matrix`, spell in a text of the version: the order of a field,
/// and at least one column, all of one length from 1 to 6, with a letter for each entry.
pub fn matrix_of(version: Version, rest: &[u8]) -> Option<NamedMinor>
    ensures { MatchOption result
        ((order : ℕ) (columns : List (List ℕ)) → IsMatrix order columns → order ≤ most_order (version_number version) →
        words_of rest.now ≡ matrix_words order columns → ⊥)
        (λ named. (order : ℕ) × (columns : List (List ℕ)) × IsMatrix order columns × (order ≤ most_order (version_number version)) ×
        (words_of rest.now ≡ matrix_words order columns) × IsNamed named (ByMatrix order columns)) }
{
    let (word, after) = next_word(rest)?;
    let order = order_of(version, word)?;
    match columns_of(order, after)? {
        Columns::Few(columns) => Some(NamedMinor::Small(matrix_item(order, columns.as_slice()))),
        Columns::Many => Some(NamedMinor::TooBig),
    }
}

/// The columns that the words of `rest` spell, over the field of that order.
fn columns_of(order: u8, rest: &[u8]) -> Option<Columns>
    requires { IsOrder order }
    ensures { MatchOption result
        ((columns : List (List ℕ)) → AreColumns order columns → words_of rest.now ≡ column_words columns → ⊥)
        (λ read. (columns : List (List ℕ)) × AreColumns order columns × (words_of rest.now ≡ column_words columns) × IsRead read columns) }
{
    let (word, after) = next_word(rest)?;
    let first = column_of(order, word)?;
    let rows = first.len();
    let mut columns = ArrayVec::new();
    columns.push(first);
    let mut is_many = false;
    let mut left = after;
    while let Some((word, after)) = next_word(left) {
        let column = column_of(order, word)?;
        if column.len() != rows {
            return None;
        }
        if columns.try_push(column).is_err() {
            is_many = true;
        }
        left = after;
    }
    if is_many {
        Some(Columns::Many)
    } else {
        Some(Columns::Few(columns))
    }
}

/// The column of 1 to 6 entries that a word spells, over the field of that order.
fn column_of(order: u8, word: &[u8]) -> Option<Column>
    requires { IsOrder order }
    ensures { MatchOption result
        ((column : List ℕ) → AreCodes order column → word.now ≡ column_word column → ⊥)
        (λ column. AreCodes order column.items × (word.now ≡ column_word column.items)) }
{
    if word.is_empty() || word.len() > 6 {
        return None;
    }
    let mut column = ArrayVec::new();
    for letter in word {
        column.push(code_of(order, *letter)?);
    }
    Some(column)
}

/// The entry below the order that a letter stands for: a digit, or `a`, `b`, `c` for 10, 11, 12.
fn code_of(order: u8, letter: u8) -> Option<u8>
    requires { order < 14 }
    ensures { MatchOption result
        ((code : ℕ) → code < order → letter ≡ entry_letter code → ⊥)
        (λ code. (code < order) × (letter ≡ entry_letter code)) }
{
    let code = match letter {
        b'0'..=b'9' => letter - b'0',
        b'a'..=b'c' => letter - b'a' + 10,
        _ => return None,
    };
    if code < order { Some(code) } else { None }
}
