ghost use Rattle.std.specs.Prelude.{◌≡◌, ◌+◌, ◌*◌, ◌≤◌, ◌<◌, ◌++◌, length, map, codes};
ghost use Rattle.std.specs.List.{range_with_len};
ghost use Rattle.matroid_theory.specs.Rep.{count, size, column_of};
ghost use Rattle.formats.specs.Statement.{column_word as word_of_codes};
ghost use Rattle.formats.specs.Levels.{columns_of, columns_of_factor};
ghost use Rattle.formats.specs.Listing.{factor_text};
ghost use Rattle.formats.specs.Listing as listing;

use crate::line::{Line, push_bytes};
use crate::words::{column_word, push_words};
use arrayvec::ArrayVec;
use field_tables::Column;
use product_rep::Rep;

/// The words that spell the columns of one factor.
fn factor_words(rep: &Rep, factor: usize) -> ArrayVec<Column, 16>
    requires { factor < count rep.now }
    ensures words { map (λ word. word.items) result.items
        ≡ map (λ j. word_of_codes (column_of rep.now factor j)) (range_with_len 0 (size rep.now)) }
    ensures count { length result.items ≡ size rep.now }
{
    let size = rep.size();
    let mut words = ArrayVec::new();
    for j in 0..size {
        words.push(column_word(&rep.factor_column(factor, j)));
    }
    words
}

/// Appends the columns of one factor as words, after ` | ` where it isn't the first.
fn push_factor(line: &mut Line, rep: &Rep, factor: usize)
    requires factor { factor < count rep.now }
    requires room { length line.old.items ≤ 115 * factor }
    ensures first { factor ≡ 0 → line.new.items ≡ line.old.items ++ factor_text (columns_of_factor rep.now factor) }
    ensures later { 0 < factor → line.new.items ≡ line.old.items ++ codes " | " ++ factor_text (columns_of_factor rep.now factor) }
    ensures room { length line.new.items ≤ 115 * (factor + 1) }
{
    let _size = rep.size();
    let words = factor_words(rep, factor);
    if factor > 0 {
        push_bytes(line, b" | ");
    }
    push_words(line, words.as_slice());
}

/// The line of a form: the columns of each factor as words, with ` | ` between two factors.
#[tactic(auto, unfolding(formats::specs::Listing::form_text))]
pub fn form_text(rep: &Rep) -> Line
    ensures { result.items ≡ listing.form_text (columns_of rep.now) }
{
    let factors = rep.factors();
    let mut line = ArrayVec::new();
    for factor in 0..factors.count() {
        push_factor(&mut line, rep, factor);
    }
    line.push(b'\n');
    line
}
