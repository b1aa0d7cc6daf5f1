// Pieces, one after another, and a level with what stands before it.
ghost use Rattle.std.specs.Prelude.{◌++◌, ◌≡◌, [], map, length, OnOk, OnErr, IsErrOf};
ghost use Rattle.std.specs.List.{concat};
ghost use Rattle.std.specs.Io.KnownBytes.{Appends};
ghost use Rattle.outside.specs.Causes.{HasCause, Rose};
ghost use Rattle.outside.specs.Bytes.{AppendsFront};
ghost use Rattle.formats.specs.Levels.{columns_of};
ghost use Rattle.formats.specs.Listing.{form_text as text_of_form};
ghost use Rattle.level_driver.specs.Grown.{IsLevelOf, AreTriesOf};
ghost use Rattle.macek_run.specs.Steps.{TellsLevel};

use formats::PrintMode;
use level_driver::{Level, listed};
use lister::{form_text, level_text};
use outside::{Failed, Sink, put};
use product_rep::Rep;
use request_reader::Request;
use std::alloc::Global;

/// Why a listing ends early.
#[derive(Clone, Copy, Debug, PartialEq, Eq)]
pub enum Stop {
    /// A write failed.
    Failed,
    /// There was no memory for the next level.
    NoMemory,
}

/// Writes pieces one after another.
fn write_block<K: Sink>(sink: &mut K, pieces: &[&[u8]]) -> Result<(), Failed>
    ensures ok { OnOk result (Appends (K.held sink.old) (K.held sink.new) (concat (map (λ piece. piece.now) pieces.now))) }
    ensures err { OnErr result (AppendsFront (K.held sink.old) (K.held sink.new) (concat (map (λ piece. piece.now) pieces.now))) }
    ensures cause { HasCause (K.faults sink.old) (K.faults sink.new) result }
{
    for piece in pieces {
        let Ok(()) = put(sink, piece) else {
            return Err(Failed);
        };
    }
    Ok(())
}

/// Writes the line of each form.
fn write_forms<K: Sink>(sink: &mut K, forms: &[&Rep]) -> Result<(), Failed>
    ensures ok { OnOk result (Appends (K.held sink.old) (K.held sink.new)
        (concat (map (λ form. text_of_form (columns_of form.now)) forms.now))) }
    ensures err { OnErr result (AppendsFront (K.held sink.old) (K.held sink.new)
        (concat (map (λ form. text_of_form (columns_of form.now)) forms.now))) }
    ensures cause { HasCause (K.faults sink.old) (K.faults sink.new) result }
{
    for form in forms {
        let line = form_text(form);
        let Ok(()) = put(sink, line.as_slice()) else {
            return Err(Failed);
        };
    }
    Ok(())
}

/// Writes two pieces, and behind them the line of each form.
fn write_pieces<K: Sink>(
    sink: &mut K,
    front: &[u8],
    line: &[u8],
    forms: &[&Rep],
) -> Result<(), Failed>
    ensures ok { OnOk result (Appends (K.held sink.old) (K.held sink.new)
        (front.now ++ (line.now ++ concat (map (λ form. text_of_form (columns_of form.now)) forms.now)))) }
    ensures err { OnErr result (AppendsFront (K.held sink.old) (K.held sink.new)
        (front.now ++ (line.now ++ concat (map (λ form. text_of_form (columns_of form.now)) forms.now)))) }
    ensures cause { HasCause (K.faults sink.old) (K.faults sink.new) result }
{
    let Ok(()) = write_block(sink, &[front, line]) else {
        return Err(Failed);
    };
    write_forms(sink, forms)
}

/// The forms that are printed of those that are listed.
fn printed_of<'a>(print: PrintMode, shown: &'a [&'a Rep]) -> &'a [&'a Rep]
    ensures forms { print ≡ PrintMode.Forms → result.now ≡ shown.now }
    ensures counts { print ≡ PrintMode.Counts → result.now ≡ [] }
{
    match print {
        PrintMode::Forms => shown,
        PrintMode::Counts => &[],
    }
}

/// Writes the level of a size: first what stands before it, then its line, and the lines of its forms that are listed.
/// Which these are is decided before, so that want of memory leaves the sink as it was.
pub fn write_level<K: Sink>(
    alloc: Global,
    request: &Request,
    sink: &mut K,
    front: &[u8],
    size: u8,
    level: &Level,
) -> Result<(), Stop>
    requires forms { IsLevelOf request.now size level.now.forms }
    requires tried { AreTriesOf request.now size level.now.tried }
    ensures ok { OnOk result (TellsLevel request.now size front.now (Appends (K.held sink.old) (K.held sink.new))) }
    ensures failed { IsErrOf result Stop.Failed →
        TellsLevel request.now size front.now (AppendsFront (K.held sink.old) (K.held sink.new)) }
    ensures no_memory { IsErrOf result Stop.NoMemory → sink.new ≡ sink.old }
    ensures rose { IsErrOf result Stop.Failed → Rose (K.faults sink.old) (K.faults sink.new) }
    ensures kept { OnOk result (K.faults sink.new ≡ K.faults sink.old) }
{
    request.laws();
    let Ok(shown) = listed(alloc, request, &level.forms) else {
        return Err(Stop::NoMemory);
    };
    let line = level_text(
        size,
        level.forms.len() as u64,
        shown.len() as u64,
        level.tried,
    );
    let printed = printed_of(request.print(), &shown);
    match write_pieces(sink, front, line.as_slice(), printed) {
        Ok(()) => Ok(()),
        Err(Failed) => Err(Stop::Failed),
    }
}
