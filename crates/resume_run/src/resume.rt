// The top call.
ghost use Rattle.std.specs.Prelude.{◌≡◌, ◌≢◌, ◌↔◌, ◌⊎◌, ◌≤◌, ℕ, List, Some};
ghost use Rattle.std.specs.Io.KnownBytes.{IsAtEnd};
ghost use Rattle.outside.specs.Causes.{Rose};
ghost use Rattle.outside.specs.Bytes.{TakesAtMost};
ghost use Rattle.formats.specs.Request.{Request as Asked};
ghost use Rattle.formats.specs.Listing.{level_count};
ghost use Rattle.formats.specs.Levels.{IsListing, IsListingUpTo, IsListingCutOff};
ghost use Rattle.resume_formats.specs.declared.fault.LevelFault.{LevelFault as Why};
ghost use Rattle.resume_formats.specs.Fault.{HasFaultFor};
ghost use Rattle.resume_formats.specs.Resumed.{AskForSize, CanResume, ResumesTo, Resumes, LeavesFault, AskWithFault};
ghost use Rattle.macek_run.specs.Run.{texts_of};

use crate::listing::write_listing;
use crate::size::size_asked;
use crate::start::read_start;
use level_file::{Start, StartFault};
use outside::{Sink, Source, TakeFault, take};
use resume_formats::ResumeStatus;
use std::alloc::Global;

/// How a run that resumes ended, and how many levels it wrote whole.
#[derive(Clone, Copy, Debug, PartialEq, Eq)]
pub struct ResumeReport {
    pub status: ResumeStatus,
    pub levels: u64,
}

impl ResumeReport {
    /// A run that wrote nothing.
    fn nothing(status: ResumeStatus) -> ResumeReport
        ensures { result ≡ record { status = status; levels = 0 } }
    {
        ResumeReport { status, levels: 0 }
    }
}

// One byte more than the longest listing that is read.
const MOST_TAKEN: usize = 16_777_217;

/// Reads a listing from the source, whole or cut off, and writes the listing of the same request to the size that the words ask
/// for: one word, a number from 1 to 16, that isn't below the greatest size that is whole in the listing. Nothing in what is read
/// is trusted: its levels are grown anew and compared with it before anything is written. The later levels are grown in the
/// orderly way.
pub fn resume_alone<S: Source, K: Sink>(
    alloc: Global,
    words: &[String],
    source: &mut S,
    sink: &mut K,
) -> ResumeReport
    // Words that aren't one number from 1 to 16, and no others, are refused.
    ensures usage { (result.status ≡ ResumeStatus.Usage) ↔ ((size : ℕ) → ¬ (AskForSize (texts_of words.now) size)) }
    ensures usage_alone { result.status ≡ ResumeStatus.Usage →
        (source.new ≡ source.old) × (sink.new ≡ sink.old) × (result.levels ≡ 0) }

    ensures read_fault { result.status ≡ ResumeStatus.ReadFault →
        Rose (S.faults source.old) (S.faults source.new) × (sink.new ≡ sink.old) × (result.levels ≡ 0) }

    ensures bad_listing { (why : Why) → result.status ≡ ResumeStatus.BadListing why →
        AskWithFault (texts_of words.now) (S.left source.old) why
        × (S.faults source.new ≡ S.faults source.old) × (sink.new ≡ sink.old) × (result.levels ≡ 0) }

    ensures write_fault { result.status ≡ ResumeStatus.WriteFault →
        Resumes (texts_of words.now) (S.left source.old) (K.held sink.old) (K.held sink.new) (λ q. IsListingCutOff q result.levels)
        × Rose (K.faults sink.old) (K.faults sink.new) × (S.faults source.new ≡ S.faults source.old) }

    // Want of memory is free, but no failed read or write is told as such. What was written then ends where a level ends.
    ensures no_memory { result.status ≡ ResumeStatus.NoMemory →
        ((sink.new ≡ sink.old) × (result.levels ≡ 0))
        ⊎ Resumes (texts_of words.now) (S.left source.old) (K.held sink.old) (K.held sink.new) (λ q. IsListingUpTo q result.levels) }
    ensures no_fault { result.status ≡ ResumeStatus.NoMemory →
        (S.faults source.new ≡ S.faults source.old) × (K.faults sink.new ≡ K.faults sink.old) }

    ensures done { result.status ≡ ResumeStatus.Done →
        Resumes (texts_of words.now) (S.left source.old) (K.held sink.old) (K.held sink.new)
        (λ q written. IsListing q written × (result.levels ≡ level_count q))
        × IsAtEnd (S.left source.new)
        × (S.faults source.new ≡ S.faults source.old) × (K.faults sink.new ≡ K.faults sink.old) }

    // However a run ends, it takes no more of the source than one byte past the longest listing.
    ensures takes { TakesAtMost 16777217 (S.left source.old) (S.left source.new) }

    // Nothing else is answered to a listing that can be resumed, nor to another text.
    ensures complete { (size : ℕ) (text : List ℕ) (q : Asked) → AskForSize (texts_of words.now) size →
        S.left source.old ≡ Some text → CanResume size text q →
        (Rose (S.faults source.old) (S.faults source.new) → ⊥) → (Rose (K.faults sink.old) (K.faults sink.new) → ⊥) →
        (result.status ≡ ResumeStatus.Done) ⊎ (result.status ≡ ResumeStatus.NoMemory) }
    ensures complete_bad { (size : ℕ) (text : List ℕ) (why : Why) → AskForSize (texts_of words.now) size →
        S.left source.old ≡ Some text → HasFaultFor size text why →
        (Rose (S.faults source.old) (S.faults source.new) → ⊥) →
        (result.status ≡ ResumeStatus.BadListing why) ⊎ (result.status ≡ ResumeStatus.NoMemory) }
{
    match size_asked(words) {
        Some(size) => resume_to(alloc, size, source, sink),
        None => ResumeReport::nothing(ResumeStatus::Usage),
    }
}

/// Reads a listing from the source, and writes that of the same request to a size, at most 16.
fn resume_to<S: Source, K: Sink>(
    alloc: Global,
    size: u8,
    source: &mut S,
    sink: &mut K,
) -> ResumeReport
    requires { size ≤ 16 }

    ensures usage { result.status ≢ ResumeStatus.Usage }

    ensures read_fault { result.status ≡ ResumeStatus.ReadFault →
        Rose (S.faults source.old) (S.faults source.new) × (sink.new ≡ sink.old) × (result.levels ≡ 0) }

    ensures bad_listing { (why : Why) → result.status ≡ ResumeStatus.BadListing why →
        LeavesFault size (S.left source.old) why
        × (S.faults source.new ≡ S.faults source.old) × (sink.new ≡ sink.old) × (result.levels ≡ 0) }

    ensures write_fault { result.status ≡ ResumeStatus.WriteFault →
        ResumesTo size (S.left source.old) (K.held sink.old) (K.held sink.new) (λ q. IsListingCutOff q result.levels)
        × Rose (K.faults sink.old) (K.faults sink.new) × (S.faults source.new ≡ S.faults source.old) }

    ensures no_memory { result.status ≡ ResumeStatus.NoMemory →
        ((sink.new ≡ sink.old) × (result.levels ≡ 0))
        ⊎ ResumesTo size (S.left source.old) (K.held sink.old) (K.held sink.new) (λ q. IsListingUpTo q result.levels) }

    ensures no_fault { result.status ≡ ResumeStatus.NoMemory →
        (S.faults source.new ≡ S.faults source.old) × (K.faults sink.new ≡ K.faults sink.old) }

    ensures done { result.status ≡ ResumeStatus.Done →
        ResumesTo size (S.left source.old) (K.held sink.old) (K.held sink.new)
        (λ q written. IsListing q written × (result.levels ≡ level_count q))
        × IsAtEnd (S.left source.new)
        × (S.faults source.new ≡ S.faults source.old) × (K.faults sink.new ≡ K.faults sink.old) }

    ensures takes { TakesAtMost 16777217 (S.left source.old) (S.left source.new) }

    ensures complete { (text : List ℕ) (q : Asked) → S.left source.old ≡ Some text → CanResume size text q →
        (Rose (S.faults source.old) (S.faults source.new) → ⊥) → (Rose (K.faults sink.old) (K.faults sink.new) → ⊥) →
        (result.status ≡ ResumeStatus.Done) ⊎ (result.status ≡ ResumeStatus.NoMemory) }
    ensures complete_bad { (text : List ℕ) (why : Why) → S.left source.old ≡ Some text → HasFaultFor size text why →
        (Rose (S.faults source.old) (S.faults source.new) → ⊥) →
        (result.status ≡ ResumeStatus.BadListing why) ⊎ (result.status ≡ ResumeStatus.NoMemory) }
{
    let text = match take(alloc, source, MOST_TAKEN) {
        Ok(text) => text,
        Err(TakeFault::Failed) => return ResumeReport::nothing(ResumeStatus::ReadFault),
        Err(TakeFault::NoMemory) => return ResumeReport::nothing(ResumeStatus::NoMemory),
    };
    let Start { request, levels } = match read_start(alloc, size, &text) {
        Ok(start) => start,
        Err(StartFault::Bad(why)) => return ResumeReport::nothing(ResumeStatus::BadListing(why)),
        Err(StartFault::NoMemory) => return ResumeReport::nothing(ResumeStatus::NoMemory),
    };
    write_listing(alloc, &request, levels, sink)
}
