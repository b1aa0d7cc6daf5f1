ghost use Rattle.std.specs.Prelude.{◌≡◌, MatchOption};
ghost use Rattle.request_lines.specs.Spellings.{keyword_word};
ghost use Rattle.request_lines.specs.declared.keyword.Keyword.{Keyword};

/// The first word of a line.
#[derive(Clone, Copy)]
pub enum Keyword {
    Version,
    Rank,
    Field,
    Size,
    Equivalence,
    Forbid,
    Filter,
    Print,
}

/// The keyword that a word spells.
pub fn keyword_of(word: &[u8]) -> Option<Keyword>
    ensures { MatchOption result
        ((keyword : Keyword) → word.now ≡ keyword_word keyword → ⊥)
        (λ keyword. word.now ≡ keyword_word keyword) }
{
    match word {
        b"version" => Some(Keyword::Version),
        b"rank" => Some(Keyword::Rank),
        b"field" => Some(Keyword::Field),
        b"size" => Some(Keyword::Size),
        b"equivalence" => Some(Keyword::Equivalence),
        b"forbid" => Some(Keyword::Forbid),
        b"filter" => Some(Keyword::Filter),
        b"print" => Some(Keyword::Print),
        _ => None,
    }
}
