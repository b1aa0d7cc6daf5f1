// A listing as a start.
ghost use Rattle.std.specs.Prelude.{◌≡◌, ◌+◌, ◌<◌, ◌≤◌, length, take, IfOk, IfErr};
ghost use Rattle.resume_formats.specs.Fronts.{line_ends};
ghost use Rattle.level_file.specs.Started.{IsStart, IsStartFault};

use crate::head::read_head;
use crate::levels::{Broken, read_levels};
use level_driver::LevelList;
use request_reader::Request;
use resume_formats::LevelFault;
use std::alloc::Global;

/// What growth can start from: a request, and its levels from the rank up, at least one.
#[derive(Drop)]
pub struct Start {
    pub request: Request,
    pub levels: LevelList,
}

/// Why growth can't start from a text.
#[derive(Clone, Copy, Debug, PartialEq, Eq)]
pub enum StartFault {
    /// This is wrong with the text.
    Bad(LevelFault),
    /// There was no memory to grow its levels anew.
    NoMemory,
}

const MOST_LISTING: usize = 16_777_216;

/// Reads a listing, whole or cut off: the request that its head tells, and the levels of exactly the sizes that are whole in
/// it. It has no filter, prints forms and has at most 16,777,216 bytes. The levels are grown anew, and each piece is compared
/// with the text.
///
/// # Errors
///
/// `Bad` with the first fault of the text, and `NoMemory` where there was none for the levels.
pub fn read_level(alloc: Global, text: &[u8]) -> Result<Start, StartFault>
    ensures ok { IfOk result (λ start. IsStart text.now start.request start.levels) }
    ensures err { IfErr result (λ fault. IsStartFault text.now fault) }
{
    if text.len() > MOST_LISTING {
        return Err(StartFault::Bad(LevelFault::TooLong));
    }
    let Some(request) = read_head(text) else {
        return Err(StartFault::Bad(LevelFault::Head));
    };
    let levels = match read_levels(alloc, &request, text) {
        Ok(levels) => levels,
        Err(Broken::Parts(left)) => {
            let line = line_at(text, text.len() - left);
            return Err(StartFault::Bad(LevelFault::Differs(line)));
        }
        Err(Broken::NoMemory) => return Err(StartFault::NoMemory),
    };
    let count = levels.len();
    if count == 0 {
        return Err(StartFault::Bad(LevelFault::NoLevel));
    }
    Ok(Start { request, levels })
}

/// The number of the line in which the byte at a place stands, from 1.
fn line_at(text: &[u8], place: usize) -> u32
    requires place { place ≤ length text.now }
    requires short { length text.now ≤ 16777216 }
    ensures { result ≡ line_ends (take place text.now) + 1 }
{
    let mut line = 1;
    for i in 0..place {
        if text[i] == b'\n' {
            line += 1;
        }
    }
    line
}
