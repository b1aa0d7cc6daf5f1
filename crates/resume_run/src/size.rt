// The words of the command line.
ghost use Rattle.std.specs.Prelude.{ℕ, MatchOption};
ghost use Rattle.resume_formats.specs.Resumed.{AskForSize};
ghost use Rattle.macek_run.specs.Run.{texts_of};

use named_matroids::number_of;

/// The size that the words ask for, where they are one number from 1 to 16.
pub(crate) fn size_asked(words: &[String]) -> Option<u8>
    ensures { MatchOption result
        ((size : ℕ) → ¬ (AskForSize (texts_of words.now) size))
        (AskForSize (texts_of words.now)) }
{
    let [word] = words else {
        return None;
    };
    let size = number_of(word.as_bytes())?;
    if size < 1 || size > 16 {
        return None;
    }
    Some(size as u8)
}
