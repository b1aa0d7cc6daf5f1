ghost use Rattle.std.specs.Prelude.{◌≡◌, ◌↔◌, ◌≤◌, ◌∷◌, [], IsTrue, ℕ, List, MatchOption, codes, decimal};
ghost use Rattle.formats.specs.Lines.{words_of};
ghost use Rattle.formats.specs.Statement.{MinorName, IsMinorName, minor_words, mode_word, print_word, order_of_minor, most_order, Statement, IsNumber, Says};
ghost use Rattle.request_lines.specs.Said.{IsNamed, IsFilter, IsSaid};
ghost use Rattle.request_lines.specs.Versions.{version_number};

use crate::cut::{is_only_word, next_word, only_word};
use crate::field_line::factors_of;
use crate::flags::{Filter, flag_of};
use crate::keyword::{Keyword, keyword_of};
use crate::matrix_line::matrix_of;
use crate::version::Version;
use formats::PrintMode;
use matroid_theory::Mode;
use named_matroids::{MinorItem, NameFault, named, number_of};
use product_rep::Factors;

/// A minor that a line names.
#[derive(Drop)]
pub enum NamedMinor {
    Small(MinorItem),
    /// It has more than 10 elements.
    TooBig,
}

/// What a line says.
#[derive(Drop)]
pub enum Said {
    Version,
    Rank(u32),
    Field(Factors),
    Size(u32),
    Forbid(NamedMinor),
    Filter(Filter),
    Equivalence(Mode),
    Print(PrintMode),
}

fn only_number(rest: &[u8]) -> Option<u32>
    ensures { MatchOption result
        ((n : ℕ) → IsNumber n → words_of rest.now ≡ decimal n ∷ [] → ⊥)
        (λ n. IsNumber n × (words_of rest.now ≡ decimal n ∷ [])) }
{
    number_of(only_word(rest)?)
}

// The minor that a text names or gives by a matrix, in a text of the version.
fn minor_of(version: Version, rest: &[u8]) -> Option<NamedMinor>
    ensures { MatchOption result
        ((minor : MinorName) → IsMinorName minor → order_of_minor minor ≤ most_order (version_number version) → words_of rest.now ≡ minor_words minor → ⊥)
        (λ named. (minor : MinorName) × IsMinorName minor × (order_of_minor minor ≤ most_order (version_number version)) ×
        (words_of rest.now ≡ minor_words minor) × IsNamed named minor) }
{
    match next_word(rest)? {
        (b"matrix", after) => matrix_of(version, after),
        _ => name_of(only_word(rest)?),
    }
}

// The minor that a word names.
fn name_of(word: &[u8]) -> Option<NamedMinor>
    ensures { MatchOption result
        ((minor : MinorName) → IsMinorName minor → minor_words minor ≡ word.now ∷ [] → ⊥)
        (λ named. (minor : MinorName) × IsMinorName minor × (minor_words minor ≡ word.now ∷ []) × IsNamed named minor) }
{
    match named(word) {
        Ok(item) => Some(NamedMinor::Small(item)),
        Err(NameFault::TooBig) => Some(NamedMinor::TooBig),
        Err(NameFault::Unknown) => None,
    }
}

// What a word asks to print.
fn print_of(word: &[u8]) -> Option<PrintMode>
    ensures { MatchOption result
        ((print : PrintMode) → word.now ≡ print_word print → ⊥)
        (λ print. word.now ≡ print_word print) }
{
    match word {
        b"forms" => Some(PrintMode::Forms),
        b"counts" => Some(PrintMode::Counts),
        _ => None,
    }
}

// The mode that a word spells.
fn mode_of(word: &[u8]) -> Option<Mode>
    ensures { MatchOption result
        ((mode : Mode) → word.now ≡ mode_word mode → ⊥)
        (λ mode. word.now ≡ mode_word mode) }
{
    match word {
        b"linear" => Some(Mode::Linear),
        b"semilinear" => Some(Mode::Semilinear),
        _ => None,
    }
}

// Whether a text is the number of the version.
fn is_number_of(version: Version, rest: &[u8]) -> bool
    ensures { IsTrue result ↔ (words_of rest.now ≡ decimal (version_number version) ∷ []) }
{
    match version {
        Version::One => is_only_word(rest, b"1"),
        Version::Two => is_only_word(rest, b"2"),
    }
}

// The filter that a text spells behind the word `filter`.
fn filter_of(version: Version, rest: &[u8]) -> Option<Filter>
    ensures { MatchOption result
        ((entry : Statement) → Says (version_number version) (codes "filter" ∷ words_of rest.now) entry → ⊥)
        (λ filter. (entry : Statement) × Says (version_number version) (codes "filter" ∷ words_of rest.now) entry × IsFilter filter entry) }
{
    match next_word(rest)? {
        (b"has", after) => Some(Filter::Has(minor_of(version, after)?)),
        _ => Some(Filter::Flag(flag_of(only_word(rest)?)?)),
    }
}

/// What a line says in a text of the version, where it has one of the forms of a line.
pub fn said_by(version: Version, line: &[u8]) -> Option<Said>
    ensures { MatchOption result
        ((entry : Statement) → Says (version_number version) (words_of line.now) entry → ⊥)
        (λ said. (entry : Statement) × Says (version_number version) (words_of line.now) entry × IsSaid said entry) }
{
    let (word, rest) = next_word(line)?;
    match keyword_of(word)? {
        Keyword::Version if is_number_of(version, rest) => Some(Said::Version),
        Keyword::Version => None,
        Keyword::Rank => Some(Said::Rank(only_number(rest)?)),
        Keyword::Field => Some(Said::Field(factors_of(version, rest)?)),
        Keyword::Size => Some(Said::Size(only_number(rest)?)),
        Keyword::Equivalence => Some(Said::Equivalence(mode_of(only_word(rest)?)?)),
        Keyword::Forbid => Some(Said::Forbid(minor_of(version, rest)?)),
        Keyword::Filter => Some(Said::Filter(filter_of(version, rest)?)),
        Keyword::Print => Some(Said::Print(print_of(only_word(rest)?)?)),
    }
}
