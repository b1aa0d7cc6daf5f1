// Words by their places.
ghost use Rattle.std.specs.Prelude.{◌≡◌, ◌↔◌, true};
ghost use Rattle.ask_formats.specs.Places.{word_at};
ghost use Rattle.ask_run.specs.Texts.{texts_of};

/// The bytes of the word at this place; no bytes where there are fewer words.
pub fn text_at(words: &[String], place: usize) -> &[u8]
    ensures { result.now ≡ word_at (texts_of words.now) place }
{
    match words.get(place) {
        Some(word) => word.as_bytes(),
        None => &[],
    }
}

/// Whether this word stands at the place.
pub fn stands_at(words: &[String], place: usize, word: &[u8]) -> bool
    ensures { (result ≡ true) ↔ (word_at (texts_of words.now) place ≡ word.now) }
{
    text_at(words, place) == word
}
