// The levels of a text, grown anew.
ghost use Rattle.std.specs.Prelude.{ℕ, ◌≡◌, ◌+◌, ◌<◌, ◌≤◌, ◌++◌, length, IfOk, IfErr, IsErrOf};
ghost use Rattle.formats.specs.Listing.{level_count};
ghost use Rattle.resume_formats.specs.Cut.{BeginsWithHead};
ghost use Rattle.level_file.specs.Compared.{IsUnmet};
ghost use Rattle.level_driver.specs.Grown.{IsGrown, AreGrown};
ghost use Rattle.level_file.specs.Grown.{form_lines, level_bytes};
ghost use Rattle.level_file.specs.Started.{AreWholeLevels, IsBroken};

use crate::compare::{Unmet, meet, parts_at_end};
use level_driver::{FormList, Level, LevelList, first_level};
use lister::{form_text, head_text, level_text};
use orderly::next_level;
use request_reader::Request;
use std::alloc::{AllocError, Global};

/// Why the levels of a text couldn't be read.
#[derive(Clone, Copy, Debug, PartialEq, Eq)]
pub(crate) enum Broken {
    /// The text parts with the listing where it has so many bytes left.
    Parts(usize),
    /// There was no memory to grow them.
    NoMemory,
}

/// The level of a request after those from its rank up, by orderly generation.
fn level_after(alloc: Global, request: &Request, levels: &LevelList) -> Result<Level, AllocError>
    requires grown { AreGrown request.now request.now.rank levels.now }
    requires room { length levels.now < level_count request.now }
    ensures { IfOk result (λ level. IsGrown request.now (request.now.rank + length levels.now) level) }
{
    request.laws();
    let count = levels.len();
    if count == 0 {
        return first_level(alloc, request);
    }
    match levels.get(count - 1) {
        Some(last) => next_level(alloc, request, &last.forms),
        None => unreachable!(),
    }
}

/// What follows the lines of the forms in what is left of a text.
fn meet_forms<'a>(rest: &'a [u8], forms: &FormList) -> Result<&'a [u8], Unmet>
    ensures whole { IfOk result (λ after. rest.now ≡ form_lines forms.now ++ after.now) }
    ensures unmet { IfErr result (λ why. IsUnmet rest.now (form_lines forms.now) why) }
{
    let mut left = rest;
    for i in 0..forms.len() {
        let Some(form) = forms.get(i) else {
            unreachable!()
        };
        match meet(left, form_text(form).as_slice()) {
            Ok(after) => left = after,
            Err(why) => return Err(why),
        }
    }
    Ok(left)
}

/// What follows a level in what is left of a text, where all its forms are listed.
fn meet_level<'a>(rest: &'a [u8], size: u8, level: &Level) -> Result<&'a [u8], Unmet>
    ensures whole { IfOk result (λ after. rest.now ≡ level_bytes size level.now ++ after.now) }
    ensures unmet { IfErr result (λ why. IsUnmet rest.now (level_bytes size level.now) why) }
{
    let count = level.forms.len() as u64;
    let line = level_text(size, count, count, level.tried);
    match meet(rest, line.as_slice()) {
        Ok(left) => meet_forms(left, &level.forms),
        Err(why) => Err(why),
    }
}

/// The levels of the sizes that are whole in a text, which begins with the head of the request.
pub(crate) fn read_levels(
    alloc: Global,
    request: &Request,
    text: &[u8],
) -> Result<LevelList, Broken>
    requires { BeginsWithHead request.now text.now }
    ensures ok { IfOk result (λ levels. AreWholeLevels request.now text.now levels) }
    ensures broken { IfErr result (λ why. IsBroken request.now text.now why) }
{
    request.laws();
    let mut levels = LevelList::new(alloc);
    let (_, mut rest) = text.split_at(head_text(request).len());
    for size in request.rank()..request.size() + 1 {
        // A text that ends here tells nothing of a further level, which may take long to grow.
        if rest.is_empty() {
            return Ok(levels);
        }
        let Ok(level) = level_after(alloc, request, &levels) else {
            return Err(Broken::NoMemory);
        };
        match meet_level(rest, size, &level) {
            Ok(after) => rest = after,
            Err(Unmet::Ends) => return Ok(levels),
            Err(Unmet::Parts(left)) => return Err(Broken::Parts(left)),
        }
        let Ok(()) = levels.push(level) else {
            return Err(Broken::NoMemory);
        };
    }
    match parts_at_end(rest) {
        None => Ok(levels),
        Some(left) => Err(Broken::Parts(left)),
    }
}
