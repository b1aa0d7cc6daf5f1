// The listing of a request, level by level.
ghost use Rattle.std.specs.Prelude.{◌≡◌, ◌+◌, ◌++◌, ◌⊎◌, OnOk, IfErr};
ghost use Rattle.outside.specs.Causes.{Rose};
ghost use Rattle.formats.specs.Listing.{level_count, end_text as the_end};
ghost use Rattle.formats.specs.Levels.{IsListing, IsListingUpTo, IsListingCutOff};
ghost use Rattle.formats.specs.Run.{Gains};
ghost use Rattle.level_driver.specs.Grown.{IsGrown, AreGrown};
ghost use Rattle.macek_run.specs.Steps.{IsLess};

use crate::Report;
use crate::growth::{Growth, level_after};
use crate::write::{Stop, write_level};
use formats::Status;
use level_driver::{Level, LevelList, first_level};
use lister::{end_text, head_text};
use outside::{Sink, put};
use request_reader::Request;
use std::alloc::Global;

/// A listing that ends early: why, and after how many whole levels.
#[derive(Clone, Copy, Debug, PartialEq, Eq)]
pub struct Cut {
    pub why: Stop,
    pub whole: u64,
}

/// Writes all of the listing of a request but its end line: the first level, those at hand after it, and then the later ones,
/// each as soon as it is grown in one of the ways.
fn write_levels<K: Sink>(
    alloc: Global,
    request: &Request,
    growth: Growth,
    first: Level,
    later: LevelList,
    sink: &mut K,
) -> Result<(), Cut>
    requires first { IsGrown request.now request.now.rank first }
    requires later { AreGrown request.now (request.now.rank + 1) later }
    ensures ok { OnOk result (Gains (K.held sink.old) (K.held sink.new) (λ written. IsListing request.now (written ++ the_end))) }
    ensures kept { OnOk result (K.faults sink.new ≡ K.faults sink.old) }
    ensures err { IfErr result (λ cut. Gains (K.held sink.old) (K.held sink.new) (IsLess cut.why request.now cut.whole)) }
    ensures rose { IfErr result (λ cut. cut.why ≡ Stop.Failed → Rose (K.faults sink.old) (K.faults sink.new)) }
    ensures no_fault { IfErr result (λ cut. cut.why ≡ Stop.NoMemory → K.faults sink.new ≡ K.faults sink.old) }
{
    request.laws();
    let rank = request.rank();
    let mut level = first;
    let mut later = later;
    let head = head_text(request);
    if let Err(why) = write_level(alloc, request, sink, head.as_slice(), rank, &level) {
        return Err(Cut { why, whole: 0 });
    }
    for size in rank..request.size() {
        let whole = u64::from(size - rank) + 1;
        let Ok(next) = level_after(alloc, growth, request, &level.forms, &mut later) else {
            let why = Stop::NoMemory;
            return Err(Cut { why, whole });
        };
        level = next;
        if let Err(why) = write_level(alloc, request, sink, &[], size + 1, &level) {
            return Err(Cut { why, whole });
        }
    }
    Ok(())
}

/// Writes the listing of a request of whose levels the first is at hand, and perhaps those after it, and says how that ended.
/// The later ones are grown in one of the ways.
pub fn write_listing_from<K: Sink>(
    alloc: Global,
    request: &Request,
    growth: Growth,
    first: Level,
    later: LevelList,
    sink: &mut K,
) -> Report
    requires first { IsGrown request.now request.now.rank first }
    requires later { AreGrown request.now (request.now.rank + 1) later }
    ensures done { result.status ≡ Status.Done →
        Gains (K.held sink.old) (K.held sink.new) (IsListing request.now)
        × (result.levels ≡ level_count request.now) × (K.faults sink.new ≡ K.faults sink.old) }
    ensures write_fault { result.status ≡ Status.WriteFault →
        Gains (K.held sink.old) (K.held sink.new) (IsListingCutOff request.now result.levels)
        × Rose (K.faults sink.old) (K.faults sink.new) }
    ensures no_memory { result.status ≡ Status.NoMemory →
        Gains (K.held sink.old) (K.held sink.new) (IsListingUpTo request.now result.levels) }
    ensures no_fault { result.status ≡ Status.NoMemory → K.faults sink.new ≡ K.faults sink.old }
    ensures only { (result.status ≡ Status.Done) ⊎ (result.status ≡ Status.WriteFault) ⊎ (result.status ≡ Status.NoMemory) }
{
    request.laws();
    let (status, levels) = match write_levels(alloc, request, growth, first, later, sink) {
        Ok(()) => {
            let levels = u64::from(request.size() - request.rank()) + 1;
            match put(sink, end_text().as_slice()) {
                Ok(()) => (Status::Done, levels),
                Err(_) => (Status::WriteFault, levels),
            }
        }
        Err(cut) => match cut.why {
            Stop::Failed => (Status::WriteFault, cut.whole),
            Stop::NoMemory => (Status::NoMemory, cut.whole),
        },
    };
    Report { status, levels }
}

/// Writes the listing of a request, whose levels are grown one from the other in one of the ways, and says how that ended.
pub fn write_listing<K: Sink>(
    alloc: Global,
    request: &Request,
    growth: Growth,
    sink: &mut K,
) -> Report
    ensures done { result.status ≡ Status.Done →
        Gains (K.held sink.old) (K.held sink.new) (IsListing request.now)
        × (result.levels ≡ level_count request.now) × (K.faults sink.new ≡ K.faults sink.old) }
    ensures write_fault { result.status ≡ Status.WriteFault →
        Gains (K.held sink.old) (K.held sink.new) (IsListingCutOff request.now result.levels)
        × Rose (K.faults sink.old) (K.faults sink.new) }
    ensures no_memory { result.status ≡ Status.NoMemory →
        Gains (K.held sink.old) (K.held sink.new) (IsListingUpTo request.now result.levels) }
    ensures no_fault { result.status ≡ Status.NoMemory → K.faults sink.new ≡ K.faults sink.old }
    ensures only { (result.status ≡ Status.Done) ⊎ (result.status ≡ Status.WriteFault) ⊎ (result.status ≡ Status.NoMemory) }
{
    request.laws();
    let Ok(first) = first_level(alloc, request) else {
        let status = Status::NoMemory;
        return Report { status, levels: 0 };
    };
    write_listing_from(alloc, request, growth, first, LevelList::new(alloc), sink)
}
