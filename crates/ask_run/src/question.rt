// The question that words ask.
ghost use Rattle.std.specs.Prelude.{◌≡◌, ◌↔◌, ◌<◌, ◌≤◌, ◌+◌, ◌∷◌, ℕ, List, drop, true, length, decimal, codes, MatchOption};
ghost use Rattle.matroid_theory.specs.Field.{IsOrder};
ghost use Rattle.matroid_theory.specs.Rep.{Rep as Matrices, size};
ghost use Rattle.formats.specs.Statement.{MinorName, minor_words};
ghost use Rattle.named_matroids.specs.Names.{named_by};
ghost use Rattle.ask_formats.specs.Question.{Question, Asks, MayBeSought};
ghost use Rattle.ask_formats.specs.Question.Question.{Dual, OverName, OverForm};
ghost use Rattle.ask_run.specs.Texts.{texts_of, over_words};
ghost use Rattle.ask_run.specs.Questions.{question_of};

use crate::field::field_of;
use crate::representation::named_in;
use crate::word::{stands_at, text_at};
use field_tables::Field;
use named_matroids::{Minor, MinorItem, named};
use product_rep::Rep;

/// A question about one matroid.
#[derive(Drop)]
pub enum Asked {
    /// The dual form of the representation.
    Dual(Rep),
    /// The least matrix over the field for the matroid that has a name.
    OverName(Field, MinorItem),
    /// The least matrix over the field for the matroid of the representation.
    OverForm(Field, Rep),
}

/// The question that the words ask.
pub fn asked_in(words: &[String]) -> Option<Asked>
    ensures { MatchOption result
        ((question : Question) → Asks (texts_of words.now) question → ⊥)
        (λ asked. Asks (texts_of words.now) (question_of asked)) }
{
    if let Some(rep) = dual_asked(words) {
        return Some(Asked::Dual(rep));
    }
    if let Some((field, item)) = name_asked(words) {
        return Some(Asked::OverName(field, item));
    }
    let (field, rep) = form_asked(words)?;
    Some(Asked::OverForm(field, rep))
}

/// The representation whose dual form the words ask for.
fn dual_asked(words: &[String]) -> Option<Rep>
    ensures { MatchOption result
        ((M : Matrices) → Asks (texts_of words.now) (Dual M) → ⊥)
        (λ rep. Asks (texts_of words.now) (Dual rep)) }
{
    if !stands_at(words, 0, b"dual") {
        return None;
    }
    let rep = named_in(&words[1..])?;
    if !has_small_dual(&rep) {
        return None;
    }
    Some(rep)
}

/// Whether the representation has one to six columns more than rows.
fn has_small_dual(rep: &Rep) -> bool
    ensures { (result ≡ true) ↔ ((rep.now.rank < size rep.now) × (size rep.now ≤ rep.now.rank + 6)) }
{
    let size = rep.size();
    let rank = rep.rank();
    rank < size && size <= rank + 6
}

/// The field and the matroid that has a name, where the words ask for its least matrix.
fn name_asked(words: &[String]) -> Option<(Field, MinorItem)>
    ensures { MatchOption result
        ((q : ℕ) (name : MinorName) → Asks (texts_of words.now) (OverName q name) → ⊥)
        (λ pair. Asks (texts_of words.now) (OverName pair.0 (named_by pair.1.spelling))) }
{
    let field = over_asked(words, b"name")?;
    let item = sought_in(&words[3..])?;
    Some((field, item))
}

/// The field and the representation, where the words ask for the least matrix of its matroid.
fn form_asked(words: &[String]) -> Option<(Field, Rep)>
    ensures { MatchOption result
        ((q : ℕ) (M : Matrices) → Asks (texts_of words.now) (OverForm q M) → ⊥)
        (λ pair. Asks (texts_of words.now) (OverForm pair.0 pair.1)) }
{
    let field = over_asked(words, b"form")?;
    let rep = named_in(&words[3..])?;
    Some((field, rep))
}

/// The field, where the words begin with `over`, its order and this word.
fn over_asked(words: &[String], kind: &[u8]) -> Option<Field>
    ensures { MatchOption result
        ((q : ℕ) (rest : List (List ℕ)) → IsOrder q → texts_of words.now ≡ over_words q kind.now rest → ⊥)
        (λ q. IsOrder q × (3 ≤ length words.now) × (texts_of words.now ≡ over_words q kind.now (drop 3 (texts_of words.now)))) }
{
    if words.len() < 3 || !stands_at(words, 0, b"over") || !stands_at(words, 2, kind) {
        return None;
    }
    field_of(text_at(words, 1))
}

/// The matroid whose name the words are: one word, and of a rank from 1 to 6.
fn sought_in(words: &[String]) -> Option<MinorItem>
    ensures { MatchOption result
        ((name : MinorName) → MayBeSought name → texts_of words.now ≡ minor_words name → ⊥)
        (λ item. MayBeSought (named_by item.spelling) × (texts_of words.now ≡ minor_words (named_by item.spelling))) }
{
    if words.len() != 1 {
        return None;
    }
    let Ok(item) = named(text_at(words, 0)) else {
        return None;
    };
    item.laws();
    if !may_be_sought(item.minor()) {
        return None;
    }
    Some(item)
}

/// Whether the rank is from 1 to 6.
fn may_be_sought(minor: &Minor) -> bool
    ensures { (result ≡ true) ↔ ((1 ≤ minor.now.rank) × (minor.now.rank ≤ 6)) }
{
    1 <= minor.rank() && minor.rank() <= 6
}
