// Lines of an answer.
ghost use Rattle.std.specs.Prelude.{◌≡◌, ◌≤◌, length, MatchOption};
ghost use Rattle.formats.specs.Listing.{form_text as form_line};
ghost use Rattle.formats.specs.Levels.{columns_of};
ghost use Rattle.ask_formats.specs.Answer.{none_text};

use arrayvec::ArrayVec;
use lister::{Line, form_text};
use product_rep::Rep;

/// These bytes.
pub fn line_from(bytes: &[u8]) -> Line
    requires { length bytes.now ≤ 384 }
    ensures { result.items ≡ bytes.now }
{
    let mut line = ArrayVec::new();
    let done = line.try_extend_from_slice(bytes).is_ok();
    prove!(done);
    line
}

/// The form line of a matrix; `none` where there is none.
#[tactic(auto, unfolding(ask_formats::specs::Answer::none_text))]
pub fn matrix_line(matrix: &Option<Rep>) -> Line
    ensures { MatchOption matrix.now (result.items ≡ none_text) (λ rep. result.items ≡ form_line (columns_of rep)) }
{
    match matrix {
        Some(rep) => form_text(rep),
        None => line_from(b"none\n"),
    }
}
