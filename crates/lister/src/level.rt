ghost use Rattle.std.specs.Prelude.{◌≡◌};
ghost use Rattle.formats.specs.Listing as listing;

use crate::line::{Line, line_of};
use itoa::Buffer;

/// The line of a level: its size, how many forms it has, how many of them are listed, and its number of tries.
#[tactic(auto, unfolding(formats::specs::Listing::level_text))]
pub fn level_text(size: u8, classes: u64, listed: u64, tried: u128) -> Line
    ensures { result.items ≡ listing.level_text size classes listed tried }
{
    let mut size_text = Buffer::new();
    let mut classes_text = Buffer::new();
    let mut listed_text = Buffer::new();
    let mut tried_text = Buffer::new();
    line_of(&[
        b"level".as_slice(),
        size_text.format(size).as_bytes(),
        b"classes".as_slice(),
        classes_text.format(classes).as_bytes(),
        b"listed".as_slice(),
        listed_text.format(listed).as_bytes(),
        b"tried".as_slice(),
        tried_text.format(tried).as_bytes(),
    ])
}

/// The last line of a listing.
#[tactic(auto, unfolding(formats::specs::Listing::end_text))]
pub fn end_text() -> Line
    ensures { result.items ≡ listing.end_text }
{
    line_of(&[b"end".as_slice()])
}
