// How the columns of a representation stand among words.
ghost use Rattle.std.specs.Prelude.{◌≡◌, ◌↔◌, ◌<◌, ◌≤◌, ◌+◌, ◌*◌, suc, ℕ, true, length, MatchOption};
ghost use Rattle.ask_formats.specs.Places.{column_place, AreReadAsColumns};
ghost use Rattle.ask_run.specs.Layouts.{IsLayout, AreParted};
ghost use Rattle.ask_run.specs.Texts.{texts_of};

use crate::word::{stands_at, text_at};

/// The numbers of factors, of columns and of rows.
#[derive(Clone, Copy, Debug, PartialEq, Eq)]
pub struct Layout {
    pub factors: usize,
    pub columns: usize,
    pub rows: usize,
}

/// The most words that a representation has: three orders and the words between, and 16 columns for each and the words between.
const MOST_WORDS: usize = 55;

/// Where column `j` of a factor stands.
pub fn place(factors: usize, columns: usize, factor: usize, j: usize) -> usize
    requires some { 0 < factors }
    requires few { factors ≤ 3 }
    requires columns { columns ≤ 16 }
    requires factor { factor < factors }
    requires j { j ≤ columns }
    ensures { result ≡ column_place factors columns factor j }
{
    factors * 2 - 1 + (factor * (columns + 1) + j)
}

/// How many columns the words have for each of that many factors.
fn column_count(words: &[String], factors: usize) -> Option<usize>
    requires some { 0 < factors }
    requires few { factors ≤ 3 }
    ensures { MatchOption result
        ((columns : ℕ) → 0 < columns → columns ≤ 16 → length words.now + 2 ≡ factors * 2 + factors * suc columns → ⊥)
        (λ columns. (0 < columns) × (columns ≤ 16) × (length words.now + 2 ≡ factors * 2 + factors * suc columns)) }
{
    if words.len() > MOST_WORDS {
        return None;
    }
    let total = words.len() + 2;
    let each = total / factors;
    if each * factors != total {
        return None;
    }
    if each < 4 || each > 19 {
        return None;
    }
    Some(each - 3)
}

/// Whether `|` stands between any two factors.
fn has_bars(words: &[String], factors: usize, columns: usize) -> bool
    requires some { 0 < factors }
    requires few { factors ≤ 3 }
    requires columns { columns ≤ 16 }
    ensures { (result ≡ true) ↔ AreParted (texts_of words.now) factors columns }
{
    for factor in 0..factors - 1 {
        if !stands_at(words, place(factors, columns, factor, columns), b"|") {
            return false;
        }
    }
    true
}

/// The layout of the words of a representation of that many factors.
pub fn layout_of(words: &[String], factors: usize) -> Option<Layout>
    requires some { 0 < factors }
    requires few { factors ≤ 3 }
    ensures { MatchOption result
        ((columns rows : ℕ) → 0 < columns → columns ≤ 16 → 0 < rows → rows ≤ 6 → AreReadAsColumns (texts_of words.now) factors columns rows → ⊥)
        (λ layout. IsLayout (texts_of words.now) layout × (layout.factors ≡ factors)) }
{
    let columns = column_count(words, factors)?;
    let rows = text_at(words, place(factors, columns, 0, 0)).len();
    if rows < 1 || rows > 6 {
        return None;
    }
    if !has_bars(words, factors, columns) {
        return None;
    }
    Some(Layout {
        factors,
        columns,
        rows,
    })
}
