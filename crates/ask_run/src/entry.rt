// The entries of a representation, as words spell them.
ghost use Rattle.std.specs.Prelude.{◌≡◌, ◌<◌, ◌+◌, ◌*◌, ℕ, MatchOption, length, slice_index};
ghost use Rattle.formats.specs.Statement.{entry_letter};
ghost use Rattle.ask_run.specs.Layouts.{IsLayout, HasEntry, HasNoEntry, LacksEntry, IsColumnOf, AreMatricesOf};
ghost use Rattle.ask_run.specs.Texts.{texts_of};

use crate::layout::{Layout, place};
use crate::word::text_at;
use arrayvec::ArrayVec;
use product_rep::{Factors, ProductColumn, Rep};

/// The entry below the order that a letter stands for: a digit, or `a`, `b`, `c` for 10, 11, 12.
fn code_of(order: u8, letter: u8) -> Option<u8>
    requires { order < 14 }
    ensures { MatchOption result
        ((code : ℕ) → code < order → letter ≡ entry_letter code → ⊥)
        (λ code. (code < order) × (letter ≡ entry_letter code)) }
{
    let code = match letter {
        b'0'..=b'9' => letter - b'0',
        b'a'..=b'c' => letter - b'a' + 10,
        _ => return None,
    };
    if code < order { Some(code) } else { None }
}

/// The code at row `i` of column `j` of a factor.
fn entry_in(
    words: &[String],
    factors: &Factors,
    layout: &Layout,
    factor: usize,
    i: usize,
    j: usize,
) -> Option<u8>
    requires layout { IsLayout (texts_of words.now) layout.now }
    requires factors { length factors.now ≡ layout.now.factors }
    requires factor { factor < layout.now.factors }
    requires row { i < layout.now.rows }
    requires column { j < layout.now.columns }
    ensures { MatchOption result
        (HasNoEntry (texts_of words.now) factors.now layout.now factor i j)
        (λ code. (code < slice_index factors.now factor) × HasEntry (texts_of words.now) layout.now factor i j code) }
{
    let word = text_at(words, place(layout.factors, layout.columns, factor, j));
    if word.len() != layout.rows {
        return None;
    }
    code_of(factors.field(factor).order(), word[i])
}

/// Column `j` of all factors.
fn column_in(
    words: &[String],
    factors: &Factors,
    layout: &Layout,
    j: usize,
) -> Option<ProductColumn>
    requires layout { IsLayout (texts_of words.now) layout.now }
    requires factors { length factors.now ≡ layout.now.factors }
    requires column { j < layout.now.columns }
    ensures { MatchOption result
        (LacksEntry (texts_of words.now) factors.now layout.now j)
        (λ column. IsColumnOf (texts_of words.now) factors.now layout.now j column.items) }
{
    let count = layout.factors;
    let mut column = ArrayVec::new();
    for at in 0..layout.rows * count {
        column.push(entry_in(words, factors, layout, at % count, at / count, j)?);
    }
    Some(column)
}

/// The matrices that the words spell.
pub fn matrices_in(words: &[String], factors: &Factors, layout: &Layout) -> Option<Rep>
    requires layout { IsLayout (texts_of words.now) layout.now }
    requires factors { length factors.now ≡ layout.now.factors }
    ensures { MatchOption result
        ((j : ℕ) × (j < layout.now.columns) × LacksEntry (texts_of words.now) factors.now layout.now j)
        (AreMatricesOf (texts_of words.now) factors.now layout.now) }
{
    let mut rep = Rep::empty(factors.copy(), layout.rows as u8);
    for j in 0..layout.columns {
        rep.push_column(&column_in(words, factors, layout, j)?);
    }
    Some(rep)
}
