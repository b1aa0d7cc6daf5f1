// What growth to a size starts from.
ghost use Rattle.std.specs.Prelude.{◌≤◌, IfOk, IfErr};
ghost use Rattle.resume_run.specs.Started.{IsStartTo, IsStartFaultTo};

use level_file::{Start, StartFault, read_level};
use resume_formats::LevelFault;
use std::alloc::Global;

/// Reads a listing, whole or cut off, to go on from it to a size, at most 16: the request to that size, and the levels of the
/// sizes that are whole in the listing.
///
/// # Errors
///
/// `Bad` with the first fault of the text, and `NoMemory` where there was none for the levels.
pub(crate) fn read_start(alloc: Global, size: u8, text: &[u8]) -> Result<Start, StartFault>
    requires { size ≤ 16 }
    ensures ok { IfOk result (λ start. IsStartTo size text.now start.request start.levels) }
    ensures err { IfErr result (λ fault. IsStartFaultTo size text.now fault) }
{
    let Start { request, levels } = match read_level(alloc, text) {
        Ok(start) => start,
        Err(fault) => return Err(fault),
    };
    request.laws();
    let last = request.rank() + (levels.len() - 1) as u8;
    if size < last {
        return Err(StartFault::Bad(LevelFault::Less(last)));
    }
    Ok(Start {
        request: request.with_size(size),
        levels,
    })
}
