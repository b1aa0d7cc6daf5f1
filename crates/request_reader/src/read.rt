ghost use Rattle.std.specs.Prelude.{◌≡◌, ◌≤◌, length, IfOk, IfErr};
ghost use Rattle.formats.specs.Request.{most_bytes, version_of as version_of_lem, StandsFor};
ghost use Rattle.formats.specs.Refusal.{HasRefusal};
ghost use Rattle.request_reader.specs.Values.{AreSaid};
ghost use Rattle.request_lines.specs.Versions.{version_number};

use crate::request::{Asked, Request, request_for};
use crate::values::Values;
use formats::{PrintMode, Refusal, Word};
use matroid_theory::Mode;
use request_lines::{Version, is_skipped_line, next_line, said_by, version_of};

const MOST_BYTES: usize = 65_536;

/// Reads a request text: the request that it asks for, or the first of its faults. The text has at most 65,536 bytes. Each
/// line says one thing; a line is skipped where it has no word or its first word begins with `#`.
pub fn read_request(text: &[u8]) -> Result<Request, Refusal>
    ensures ok { IfOk result (λ request. StandsFor text.now request) }
    ensures err { IfErr result (λ why. HasRefusal text.now why) }
{
    if text.len() > MOST_BYTES {
        return Err(Refusal::TooLong);
    }
    let version = version_of(text);
    let Values {
        rank,
        factors,
        size,
        forbid,
        filters,
        print,
        mode,
        ..
    } = read_values(version, text)?;
    let Some(rank) = rank else {
        return Err(Refusal::Missing(Word::Rank));
    };
    let Some(factors) = factors else {
        return Err(Refusal::Missing(Word::Field));
    };
    let Some(size) = size else {
        return Err(Refusal::Missing(Word::Size));
    };
    request_for(Asked {
        version,
        factors,
        rank,
        size,
        forbid,
        filters,
        print: print.unwrap_or(PrintMode::Forms),
        mode: mode.unwrap_or(Mode::Linear),
    })
}

// What the lines say, each kind at most once.
fn read_values(version: Version, text: &[u8]) -> Result<Values, Refusal>
    requires short { length text.now ≤ most_bytes }
    requires version { version_number version ≡ version_of_lem text.now }
    ensures ok { IfOk result (λ values. AreSaid text.now values) }
    ensures err { IfErr result (λ why. HasRefusal text.now why) }
{
    let mut values = Values::new();
    let mut number = 0;
    let mut rest = text;
    while !rest.is_empty() {
        let (line, after) = next_line(rest);
        rest = after;
        number += 1;
        if is_skipped_line(line) {
            continue;
        }
        let Some(said) = said_by(version, line) else {
            return Err(Refusal::BadLine(number));
        };
        match values.with(said) {
            Ok(more) => values = more,
            Err(wrong) => return Err(wrong.refusal(number)),
        }
    }
    Ok(values)
}
