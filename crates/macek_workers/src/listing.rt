// The listing of a request, level by level, where each level is grown by workers.
ghost use Rattle.std.specs.Prelude.{◌≡◌, ◌++◌, ◌⊎◌, ◌<◌, ◌≤◌, OnOk, IfErr, length};
ghost use Rattle.outside.specs.Causes.{Rose};
ghost use Rattle.formats.specs.Listing.{level_count, end_text as the_end};
ghost use Rattle.formats.specs.Levels.{IsListing, IsListingUpTo, IsListingCutOff};
ghost use Rattle.formats.specs.Run.{Gains};
ghost use Rattle.macek_run.specs.Steps.{IsLess};
ghost use Rattle.macek_workers.specs.Stored.{HasCallsBelow, HasClosed, HasClosedAtCut, HasClosedSome, LeavesStore};

use class_store::ClassStore;
use formats::Status;
use level_driver::first_level;
use lister::{end_text, head_text};
use macek_run::{Cut, Report, Stop, write_level};
use outside::{Gate, Sink, put};
use request_reader::Request;
use std::alloc::Global;
use std::sync::Wait;
use std::thread::Threads;
use workers::grow;

/// Grows the levels of a request one from the other by workers and writes each as soon as it is grown: all of the listing but
/// its end line.
fn write_levels<R: Threads + Wait + Sync, K: Sink, G: Gate + Sync>(
    rt: &R,
    alloc: Global,
    request: &Request,
    workers: usize,
    sink: &mut K,
    store: &mut ClassStore,
    gate: &G,
) -> Result<(), Cut>
    requires some { 0 < workers }
    requires few { workers ≤ 64 }
    ensures ok { OnOk result (Gains (K.held sink.old) (K.held sink.new) (λ written. IsListing request.now (written ++ the_end))) }
    ensures kept { OnOk result (K.faults sink.new ≡ K.faults sink.old) }
    ensures err { IfErr result (λ cut. Gains (K.held sink.old) (K.held sink.new) (IsLess cut.why request.now cut.whole)) }
    ensures rose { IfErr result (λ cut. cut.why ≡ Stop.Failed → Rose (K.faults sink.old) (K.faults sink.new)) }
    ensures no_fault { IfErr result (λ cut. cut.why ≡ Stop.NoMemory → K.faults sink.new ≡ K.faults sink.old) }
    ensures callers { HasCallsBelow workers store.old store.new }
    ensures stripes { store.new.stripes ≡ store.old.stripes }
    ensures width { length store.old.last ≡ store.old.stripes → length store.new.last ≡ store.new.stripes }
    ensures closed { OnOk result (HasClosed request.now request.now.size store.old store.new) }
    ensures leaves { IfErr result (λ cut. LeavesStore cut.why request.now cut.whole store.old store.new) }
{
    request.laws();
    let rank = request.rank();
    let no_memory = Stop::NoMemory;
    let Ok(mut level) = first_level(alloc, request) else {
        return Err(Cut {
            why: no_memory,
            whole: 0,
        });
    };
    let head = head_text(request);
    if let Err(why) = write_level(alloc, request, sink, head.as_slice(), rank, &level) {
        return Err(Cut { why, whole: 0 });
    }
    for size in rank..request.size() {
        let whole = u64::from(size - rank) + 1;
        let Ok(next) = grow(rt, alloc, request, &level.forms, workers, store, gate) else {
            return Err(Cut {
                why: no_memory,
                whole,
            });
        };
        level = next;
        if let Err(why) = write_level(alloc, request, sink, &[], size + 1, &level) {
            return Err(Cut { why, whole });
        }
    }
    Ok(())
}

/// Writes the listing of a request, whose levels are grown by workers through the store, and says how that ended.
pub fn write_listing<R: Threads + Wait + Sync, K: Sink, G: Gate + Sync>(
    rt: &R,
    alloc: Global,
    request: &Request,
    workers: usize,
    sink: &mut K,
    store: &mut ClassStore,
    gate: &G,
) -> Report
    requires some { 0 < workers }
    requires few { workers ≤ 64 }
    ensures done { result.status ≡ Status.Done →
        Gains (K.held sink.old) (K.held sink.new) (IsListing request.now)
        × (result.levels ≡ level_count request.now) × (K.faults sink.new ≡ K.faults sink.old)
        × HasClosed request.now request.now.size store.old store.new }
    ensures write_fault { result.status ≡ Status.WriteFault →
        Gains (K.held sink.old) (K.held sink.new) (IsListingCutOff request.now result.levels)
        × Rose (K.faults sink.old) (K.faults sink.new)
        × HasClosedAtCut request.now result.levels store.old store.new }
    ensures no_memory { result.status ≡ Status.NoMemory →
        Gains (K.held sink.old) (K.held sink.new) (IsListingUpTo request.now result.levels)
        × HasClosedSome request.now result.levels store.old store.new }
    ensures no_fault { result.status ≡ Status.NoMemory → K.faults sink.new ≡ K.faults sink.old }
    ensures callers { HasCallsBelow workers store.old store.new }
    ensures stripes { store.new.stripes ≡ store.old.stripes }
    ensures width { length store.old.last ≡ store.old.stripes → length store.new.last ≡ store.new.stripes }
    ensures only { (result.status ≡ Status.Done) ⊎ (result.status ≡ Status.WriteFault) ⊎ (result.status ≡ Status.NoMemory) }
{
    request.laws();
    let (status, levels) = match write_levels(rt, alloc, request, workers, sink, store, gate) {
        Ok(()) => {
            let levels = u64::from(request.size() - request.rank()) + 1;
            match put(sink, end_text().as_slice()) {
                Ok(()) => (Status::Done, levels),
                Err(_) => (Status::WriteFault, levels),
            }
        }
        Err(cut) => match cut.why {
            Stop::Failed => (Status::WriteFault, cut.whole),
            Stop::NoMemory => (Status::NoMemory, cut.whole),
        },
    };
    Report { status, levels }
}
