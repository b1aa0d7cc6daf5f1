// The run of `macek`, from its words to its report.
ghost use Rattle.std.specs.Prelude.{◌≡◌, ◌≢◌, ◌⊎◌, ◌<◌, ◌≤◌, ℕ, List, Some, IfSome, length, unwrap_or};
ghost use Rattle.std.specs.Io.KnownBytes.{IsAtEnd};
ghost use Rattle.outside.specs.Causes.{Rose};
ghost use Rattle.outside.specs.Bytes.{TakesAtMost};
ghost use Rattle.formats.specs.declared.refusal.Refusal.{Refusal as Why};
ghost use Rattle.formats.specs.Request.{Request as Asked, StandsFor};
ghost use Rattle.formats.specs.Refusal.{HasRefusal};
ghost use Rattle.formats.specs.Listing.{level_count};
ghost use Rattle.formats.specs.Words.{StandsAtMacek, AsksForKnownText};
ghost use Rattle.formats.specs.Run.{AsksForRefused};
ghost use Rattle.formats.specs.Levels.{IsListing, IsListingUpTo, IsListingCutOff};
ghost use Rattle.macek_run.specs.Run.{texts_of, AreAccepted, NameSample, Lists, LeavesRefused, ListsLeft};
ghost use Rattle.macek_workers.specs.Stored.{AskForWorkers, HasCallsBelow, HasClosed, HasClosedAtCut, HasClosedSome};

use crate::listing::write_listing;
use class_store::ClassStore;
use command_words::read_words;
use formats::Status;
use macek_run::Report;
use outside::{Gate, Sink, Source, TakeFault, take};
use request_reader::{read_request, sample_request};
use std::alloc::Global;
use std::sync::Wait;
use std::thread::Threads;

// One byte more than the longest text that is read.
const MOST_TAKEN: usize = 65_537;

/// The number of workers: 4 where the words name none.
fn workers_of(named: Option<u32>) -> usize
    requires { IfSome named (λ n. (1 ≤ n) × (n ≤ 64)) }
    ensures is { result ≡ unwrap_or named 4 }
    ensures some { 0 < result }
    ensures few { result ≤ 64 }
{
    named.unwrap_or(4) as usize
}

/// Writes the listing of a request to the sink: of the sample that the words name, or else of the request that is read from
/// the source. The words are those of the command line, without the program's name: at most one `--workers N` and one
/// `--sample K`, or with `=` in place of the space. The levels above the first are grown by so many workers through the store,
/// by 4 where no number is named. Each worker calls the gate before each parent that it extends.
///
/// The store's last closed level is then that of the last size that was grown, if any was: the calls on each of its stripes are one
/// legal history of a set, with each worker's calls in its own order, and each form's key was told New just once.
pub fn macek<R: Threads + Wait + Sync, S: Source, K: Sink, G: Gate + Sync>(
    rt: &R,
    alloc: Global,
    words: &[String],
    source: &mut S,
    sink: &mut K,
    store: &mut ClassStore,
    gate: &G,
) -> Report
    // Words that aren't accepted, and no others, are refused.
    ensures usage { result.status ≡ Status.Usage → AreAccepted StandsAtMacek (texts_of words.now) → ⊥ }
    ensures accepted { (result.status ≡ Status.Usage) ⊎ (result.status ≡ Status.NoMemory) ⊎ AreAccepted StandsAtMacek (texts_of words.now) }
    ensures usage_alone { result.status ≡ Status.Usage →
        (source.new ≡ source.old) × (sink.new ≡ sink.old) × (store.new ≡ store.old) × (result.levels ≡ 0) }

    // Where a sample is named, the source is never called.
    ensures sample { NameSample StandsAtMacek (texts_of words.now) →
        (source.new ≡ source.old) × (result.status ≢ Status.ReadFault) × ((why : Why) → result.status ≢ Status.Refused why) }

    ensures read_fault { result.status ≡ Status.ReadFault →
        Rose (S.faults source.old) (S.faults source.new) × (sink.new ≡ sink.old) × (store.new ≡ store.old) × (result.levels ≡ 0) }

    ensures refused { (why : Why) → result.status ≡ Status.Refused why →
        AsksForRefused StandsAtMacek (texts_of words.now) (S.left source.old) why
        × (S.faults source.new ≡ S.faults source.old) × (sink.new ≡ sink.old) × (store.new ≡ store.old) × (result.levels ≡ 0) }

    ensures write_fault { result.status ≡ Status.WriteFault →
        Lists StandsAtMacek (texts_of words.now) (S.left source.old) (K.held sink.old) (K.held sink.new)
        (λ q written. IsListingCutOff q result.levels written × HasClosedAtCut q result.levels store.old store.new)
        × Rose (K.faults sink.old) (K.faults sink.new) × (S.faults source.new ≡ S.faults source.old) }

    // Want of memory is free, but no failed read or write is told as such. What was written then ends where a level ends.
    ensures no_memory { result.status ≡ Status.NoMemory →
        ((sink.new ≡ sink.old) × (store.new ≡ store.old) × (result.levels ≡ 0))
        ⊎ Lists StandsAtMacek (texts_of words.now) (S.left source.old) (K.held sink.old) (K.held sink.new)
        (λ q written. IsListingUpTo q result.levels written × HasClosedSome q result.levels store.old store.new) }
    ensures no_fault { result.status ≡ Status.NoMemory →
        (S.faults source.new ≡ S.faults source.old) × (K.faults sink.new ≡ K.faults sink.old) }

    ensures done { result.status ≡ Status.Done →
        Lists StandsAtMacek (texts_of words.now) (S.left source.old) (K.held sink.old) (K.held sink.new)
        (λ q written. IsListing q written × (result.levels ≡ level_count q) × HasClosed q q.size store.old store.new)
        × (NameSample StandsAtMacek (texts_of words.now) ⊎ IsAtEnd (S.left source.new))
        × (S.faults source.new ≡ S.faults source.old) × (K.faults sink.new ≡ K.faults sink.old) }

    // However a run ends, the level that was closed last is the old one or was written by so many workers as the words ask for,
    // the store keeps its number of stripes, and that level has as many. No more of the source is taken than one byte past the
    // longest text.
    ensures callers { (workers : ℕ) → AskForWorkers (texts_of words.now) workers → HasCallsBelow workers store.old store.new }
    ensures stripes { store.new.stripes ≡ store.old.stripes }
    ensures width { length store.old.last ≡ store.old.stripes → length store.new.last ≡ store.new.stripes }
    ensures takes { TakesAtMost 65537 (S.left source.old) (S.left source.new) }

    // Nothing else is answered to an accepted request, nor to another text.
    ensures complete { (text : List ℕ) (q : Asked) → AsksForKnownText StandsAtMacek (texts_of words.now) (S.left source.old) text → StandsFor text q →
        (Rose (S.faults source.old) (S.faults source.new) → ⊥) → (Rose (K.faults sink.old) (K.faults sink.new) → ⊥) →
        (result.status ≡ Status.Done) ⊎ (result.status ≡ Status.NoMemory) }
    ensures complete_refused { (text : List ℕ) (why : Why) → AsksForKnownText StandsAtMacek (texts_of words.now) (S.left source.old) text → HasRefusal text why →
        (Rose (S.faults source.old) (S.faults source.new) → ⊥) →
        (result.status ≡ Status.Refused why) ⊎ (result.status ≡ Status.NoMemory) }
{
    match read_words(alloc, words) {
        Ok(Some(asked)) => {
            let workers = workers_of(asked.workers);
            match asked.sample {
                Some(number) => {
                    let request = sample_request(number);
                    write_listing(rt, alloc, &request, workers, sink, store, gate)
                }
                None => list_source(rt, alloc, workers, source, sink, store, gate),
            }
        }
        Ok(None) => Report::nothing(Status::Usage),
        Err(_) => Report::nothing(Status::NoMemory),
    }
}

/// Writes the listing of the request that is read from the source.
fn list_source<R: Threads + Wait + Sync, S: Source, K: Sink, G: Gate + Sync>(
    rt: &R,
    alloc: Global,
    workers: usize,
    source: &mut S,
    sink: &mut K,
    store: &mut ClassStore,
    gate: &G,
) -> Report
    requires some { 0 < workers }
    requires few { workers ≤ 64 }
    ensures usage { result.status ≢ Status.Usage }

    ensures read_fault { result.status ≡ Status.ReadFault →
        Rose (S.faults source.old) (S.faults source.new) × (sink.new ≡ sink.old) × (store.new ≡ store.old) × (result.levels ≡ 0) }

    ensures refused { (why : Why) → result.status ≡ Status.Refused why →
        LeavesRefused (S.left source.old) why
        × (S.faults source.new ≡ S.faults source.old) × (sink.new ≡ sink.old) × (store.new ≡ store.old) × (result.levels ≡ 0) }

    ensures write_fault { result.status ≡ Status.WriteFault →
        ListsLeft (S.left source.old) (K.held sink.old) (K.held sink.new)
        (λ q written. IsListingCutOff q result.levels written × HasClosedAtCut q result.levels store.old store.new)
        × Rose (K.faults sink.old) (K.faults sink.new) × (S.faults source.new ≡ S.faults source.old) }

    ensures no_memory { result.status ≡ Status.NoMemory →
        ((sink.new ≡ sink.old) × (store.new ≡ store.old) × (result.levels ≡ 0))
        ⊎ ListsLeft (S.left source.old) (K.held sink.old) (K.held sink.new)
        (λ q written. IsListingUpTo q result.levels written × HasClosedSome q result.levels store.old store.new) }

    ensures no_fault { result.status ≡ Status.NoMemory →
        (S.faults source.new ≡ S.faults source.old) × (K.faults sink.new ≡ K.faults sink.old) }

    ensures done { result.status ≡ Status.Done →
        ListsLeft (S.left source.old) (K.held sink.old) (K.held sink.new)
        (λ q written. IsListing q written × (result.levels ≡ level_count q) × HasClosed q q.size store.old store.new)
        × IsAtEnd (S.left source.new)
        × (S.faults source.new ≡ S.faults source.old) × (K.faults sink.new ≡ K.faults sink.old) }

    ensures callers { HasCallsBelow workers store.old store.new }
    ensures stripes { store.new.stripes ≡ store.old.stripes }
    ensures width { length store.old.last ≡ store.old.stripes → length store.new.last ≡ store.new.stripes }
    ensures takes { TakesAtMost 65537 (S.left source.old) (S.left source.new) }

    ensures complete { (text : List ℕ) (q : Asked) → S.left source.old ≡ Some text → StandsFor text q →
        (Rose (S.faults source.old) (S.faults source.new) → ⊥) → (Rose (K.faults sink.old) (K.faults sink.new) → ⊥) →
        (result.status ≡ Status.Done) ⊎ (result.status ≡ Status.NoMemory) }
    ensures complete_refused { (text : List ℕ) (why : Why) → S.left source.old ≡ Some text → HasRefusal text why →
        (Rose (S.faults source.old) (S.faults source.new) → ⊥) →
        (result.status ≡ Status.Refused why) ⊎ (result.status ≡ Status.NoMemory) }
{
    let text = match take(alloc, source, MOST_TAKEN) {
        Ok(text) => text,
        Err(TakeFault::Failed) => return Report::nothing(Status::ReadFault),
        Err(TakeFault::NoMemory) => return Report::nothing(Status::NoMemory),
    };
    let request = match read_request(&text) {
        Ok(request) => request,
        Err(refusal) => return Report::nothing(Status::Refused(refusal)),
    };
    write_listing(rt, alloc, &request, workers, sink, store, gate)
}
