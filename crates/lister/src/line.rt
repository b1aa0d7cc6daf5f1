ghost use Rattle.std.specs.Prelude.{◌≡◌, ◌+◌, ◌≤◌, ◌++◌, length, map};
ghost use Rattle.formats.specs.Lines.{line_of_words};

use arrayvec::ArrayVec;

/// One line with its end, at most 384 bytes.
pub type Line = ArrayVec<u8, 384>;

/// The lines of a head, at most 1024 bytes.
pub type Head = ArrayVec<u8, 1024>;

/// Appends bytes, for which there is room.
pub fn push_bytes(line: &mut Line, bytes: &[u8])
    requires { length line.old.items + length bytes.now ≤ 384 }
    ensures { line.new.items ≡ line.old.items ++ bytes.now }
{
    let done = line.try_extend_from_slice(bytes).is_ok();
    prove!(done);
}

/// These bytes.
pub fn line_from(bytes: &[u8]) -> Line
    requires { length bytes.now ≤ 384 }
    ensures { result.items ≡ bytes.now }
{
    let mut line = ArrayVec::new();
    push_bytes(&mut line, bytes);
    line
}

/// The line of some words, with one space between two.
pub fn line_of(words: &[&[u8]]) -> Line
    requires { length (line_of_words (map (λ word. word.now) words.now)) ≤ 384 }
    ensures { result.items ≡ line_of_words (map (λ word. word.now) words.now) }
{
    let mut line = ArrayVec::new();
    let mut rest = words;
    while let [word, next @ ..] = rest {
        push_bytes(&mut line, word);
        if !next.is_empty() {
            line.push(b' ');
        }
        rest = next;
    }
    line.push(b'\n');
    line
}

/// Appends the line of some words to a head.
pub fn push_line(head: &mut Head, words: &[&[u8]])
    requires short { length (line_of_words (map (λ word. word.now) words.now)) ≤ 384 }
    requires room { length head.old.items + length (line_of_words (map (λ word. word.now) words.now)) ≤ 1024 }
    ensures { head.new.items ≡ head.old.items ++ line_of_words (map (λ word. word.now) words.now) }
{
    let line = line_of(words);
    let done = head.try_extend_from_slice(line.as_slice()).is_ok();
    prove!(done);
}
