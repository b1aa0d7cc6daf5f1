// The head at the front of a text.
ghost use Rattle.std.specs.Prelude.{◌≡◌, ◌≤◌, ◌↔◌, ◌++◌, codes, length, List, ℕ, IsTrue, MatchOption};
ghost use Rattle.formats.specs.Request.{Request as Asked};
ghost use Rattle.resume_formats.specs.Cut.{ListsAllForms, BeginsWithHead};
ghost use Rattle.resume_formats.specs.Heads.{IsHeadOf};

use formats::PrintMode;
use lister::head_text;
use request_reader::{Request, read_request};

// The most bytes of a head: its first line, and a request text.
const MOST_HEAD: usize = 65_552;

// The bytes of the first line of a head.
const FIRST_LINE: usize = 16;

/// The request without filter that prints forms with whose head the text begins; None where there is none.
pub(crate) fn read_head(text: &[u8]) -> Option<Request>
    ensures { MatchOption result ((q : Asked) → ¬ (BeginsWithHead q text.now)) (λ request. BeginsWithHead request text.now) }
{
    let most = text.len().min(MOST_HEAD);
    for end in 0..most + 1 {
        let (head, _) = text.split_at(end);
        if let Some(request) = request_of_head(head) {
            return Some(request);
        }
    }
    None
}

/// The request without filter that prints forms whose head this is.
fn request_of_head(head: &[u8]) -> Option<Request>
    ensures { MatchOption result ((q : Asked) → ¬ (IsHeadOf q head.now)) (λ request. IsHeadOf request head.now) }
{
    if !has_last_line(head) {
        return None;
    }
    let (_, lines) = head.split_at(FIRST_LINE);
    let Ok(request) = read_request(lines) else {
        return None;
    };
    let is_head = head_text(&request).as_slice() == head;
    if is_head && lists_all_forms(&request) {
        return Some(request);
    }
    None
}

/// Whether the bytes may be a head by their number and their last line. Each other place of a text is passed over by this.
fn has_last_line(head: &[u8]) -> bool
    ensures room { IsTrue result → 16 ≤ length head.now }
    ensures others { (front : List ℕ) → head.now ≡ codes "macek listing 1\n" ++ (front ++ codes "print forms\n") → IsTrue result }
{
    head.len() >= FIRST_LINE && head.ends_with(b"print forms\n")
}

/// Whether a request has no filter and prints forms.
fn lists_all_forms(request: &Request) -> bool
    ensures { IsTrue result ↔ ListsAllForms request.now }
{
    let filters = request.filters();
    let is_filtered = filters.connected || filters.three || filters.cosimple || filters.distinct;
    !is_filtered && filters.has.is_none() && matches!(request.print(), PrintMode::Forms)
}
