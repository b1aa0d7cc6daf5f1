ghost use Rattle.std.specs.Prelude.{◌≡◌};
ghost use Rattle.ask_formats.specs.Status as texts;

use crate::line::line_from;
use ask_formats::AskStatus;
use lister::Line;

/// The text of a status, as one line; no bytes for `Done`.
#[tactic(auto, unfolding(ask_formats::specs::Status::ask_text))]
pub fn ask_text(status: &AskStatus) -> Line
    ensures { result.items ≡ texts.ask_text status.now }
{
    match status {
        AskStatus::Done => line_from(b""),
        AskStatus::Usage => {
            line_from(b"macek_ask: usage: dual FIELD FORM, over Q name M, over Q form FIELD FORM\n")
        }
        AskStatus::WriteFault => line_from(b"macek_ask: the answer could not be written\n"),
    }
}
