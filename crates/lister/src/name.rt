//! Minors as lines name them.
ghost use Rattle.std.specs.Prelude.{◌≡◌, ◌≤◌, ◌++◌, length, codes, decimal};
ghost use Rattle.std.specs.List.{join_with_byte};
ghost use Rattle.formats.specs.Statement.{ByMatrix, IsMatrix, minor_words};
ghost use Rattle.named_matroids.specs.Names.{named_by, IsSmallName};

use crate::line::{Line, line_from, push_bytes};
use crate::words::column_word;
use itoa::Buffer;
use named_matroids::{MatrixText, Spelling};

/// The words that name a matroid, with one space between two.
pub fn name_of(spelling: &Spelling) -> Line
    requires { IsSmallName (named_by spelling.now) }
    ensures name { result.items ≡ join_with_byte 32 (minor_words (named_by spelling.now)) }
    ensures short { length result.items ≤ 80 }
{
    match spelling {
        Spelling::Uniform(rank, size) => uniform_name(*rank, *size),
        Spelling::Fano => line_from(b"F7"),
        Spelling::FanoDual => line_from(b"F7*"),
        Spelling::NonFano => line_from(b"F7-"),
        Spelling::KFour => line_from(b"K4"),
        Spelling::KFive => line_from(b"K5"),
        Spelling::Matrix(text) => matrix_words(text),
    }
}

/// The name of a uniform matroid.
fn uniform_name(rank: u8, size: u8) -> Line
    ensures name { result.items ≡ codes "U" ++ (decimal rank ++ (codes "," ++ decimal size)) }
    ensures short { length result.items ≤ 8 }
{
    let mut rank_text = Buffer::new();
    let mut size_text = Buffer::new();
    let mut name = line_from(b"U");
    push_bytes(&mut name, rank_text.format(rank).as_bytes());
    push_bytes(&mut name, b",");
    push_bytes(&mut name, size_text.format(size).as_bytes());
    name
}

/// The words of a matrix, with one space between two.
fn matrix_words(text: &MatrixText) -> Line
    requires { IsMatrix text.now.order text.now.columns }
    ensures words { result.items ≡ join_with_byte 32 (minor_words (ByMatrix text.now.order text.now.columns)) }
    ensures short { length result.items ≤ 80 }
{
    let mut order = Buffer::new();
    let mut line = line_from(b"matrix ");
    push_bytes(&mut line, order.format(text.order()).as_bytes());
    for column in text.columns() {
        line.push(b' ');
        push_bytes(&mut line, column_word(column).as_slice());
    }
    line
}
