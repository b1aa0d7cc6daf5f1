// The listing of a request whose first levels are at hand.
ghost use Rattle.std.specs.Prelude.{◌≡◌, ◌<◌, ◌⊎◌, length};
ghost use Rattle.outside.specs.Causes.{Rose};
ghost use Rattle.formats.specs.Listing.{level_count};
ghost use Rattle.formats.specs.Levels.{IsListing, IsListingUpTo, IsListingCutOff};
ghost use Rattle.formats.specs.Run.{Gains};
ghost use Rattle.level_driver.specs.Grown.{AreGrown};

use crate::ResumeReport;
use formats::Status;
use level_driver::LevelList;
use macek_run::{Growth, write_listing_from};
use outside::Sink;
use request_reader::Request;
use resume_formats::ResumeStatus;
use std::alloc::Global;

/// Writes the listing of a request, of whose levels those from its rank up are at hand, at least one, and says how that ended.
/// The later ones are grown in the orderly way.
pub(crate) fn write_listing<K: Sink>(
    alloc: Global,
    request: &Request,
    levels: LevelList,
    sink: &mut K,
) -> ResumeReport
    requires some { 0 < length levels }
    requires grown { AreGrown request.now request.now.rank levels }
    ensures done { result.status ≡ ResumeStatus.Done →
        Gains (K.held sink.old) (K.held sink.new) (IsListing request.now)
        × (result.levels ≡ level_count request.now) × (K.faults sink.new ≡ K.faults sink.old) }
    ensures write_fault { result.status ≡ ResumeStatus.WriteFault →
        Gains (K.held sink.old) (K.held sink.new) (IsListingCutOff request.now result.levels)
        × Rose (K.faults sink.old) (K.faults sink.new) }
    ensures no_memory { result.status ≡ ResumeStatus.NoMemory →
        Gains (K.held sink.old) (K.held sink.new) (IsListingUpTo request.now result.levels) }
    ensures no_fault { result.status ≡ ResumeStatus.NoMemory → K.faults sink.new ≡ K.faults sink.old }
    ensures only { (result.status ≡ ResumeStatus.Done) ⊎ (result.status ≡ ResumeStatus.WriteFault) ⊎ (result.status ≡ ResumeStatus.NoMemory) }
{
    let mut later = levels;
    let Some(first) = later.take_first() else {
        unreachable!()
    };
    let report = write_listing_from(alloc, request, Growth::Orderly, first, later, sink);
    let status = match report.status {
        Status::Done => ResumeStatus::Done,
        Status::WriteFault => ResumeStatus::WriteFault,
        Status::NoMemory => ResumeStatus::NoMemory,
        _ => unreachable!(),
    };
    let levels = report.levels;
    ResumeReport { status, levels }
}
