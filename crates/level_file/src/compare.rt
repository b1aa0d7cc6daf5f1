// A piece of a listing and what is left of a text.
ghost use Rattle.std.specs.Prelude.{◌≡◌, ◌≢◌, ◌<◌, ◌≤◌, ◌++◌, length, take, slice_index, IfOk, IfErr, MatchOption};
ghost use Rattle.formats.specs.Listing.{end_text as the_end};
ghost use Rattle.resume_formats.specs.Fronts.{BeginsWith};
ghost use Rattle.level_file.specs.Compared.{IsUnmet, PartsWith};

use lister::end_text;

/// How what is left of a text doesn't begin with a piece.
#[derive(Clone, Copy, Debug, PartialEq, Eq)]
pub(crate) enum Unmet {
    /// It ends within the piece.
    Ends,
    /// The two part where it has so many bytes left.
    Parts(usize),
}

/// How many bytes two texts have in common at their fronts.
fn common_len(a: &[u8], b: &[u8]) -> usize
    ensures first { result ≤ length a.now }
    ensures second { result ≤ length b.now }
    ensures common { take result a.now ≡ take result b.now }
    ensures parts { result < length a.now → result < length b.now → slice_index a.now result ≢ slice_index b.now result }
{
    let most = a.len().min(b.len());
    for i in 0..most {
        if a[i] != b[i] {
            return i;
        }
    }
    most
}

/// What follows the piece in what is left of a text, where it begins with the piece.
pub(crate) fn meet<'a>(rest: &'a [u8], piece: &[u8]) -> Result<&'a [u8], Unmet>
    ensures whole { IfOk result (λ after. rest.now ≡ piece.now ++ after.now) }
    ensures unmet { IfErr result (λ why. IsUnmet rest.now piece.now why) }
{
    let common = common_len(rest, piece);
    let (_, left) = rest.split_at(common);
    if common == piece.len() {
        return Ok(left);
    }
    if left.is_empty() {
        return Err(Unmet::Ends);
    }
    Err(Unmet::Parts(left.len()))
}

/// How many bytes are left where what follows all levels parts with the end line; None where it is a front of that line.
pub(crate) fn parts_at_end(rest: &[u8]) -> Option<usize>
    ensures { MatchOption result (BeginsWith the_end rest.now) (λ left. PartsWith left rest.now the_end) }
{
    match meet(rest, end_text().as_slice()) {
        Ok(after) if after.is_empty() => None,
        Ok(after) => Some(after.len()),
        Err(Unmet::Ends) => None,
        Err(Unmet::Parts(left)) => Some(left),
    }
}
