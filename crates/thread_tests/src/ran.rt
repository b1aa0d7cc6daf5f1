// Runs over memory.
ghost use Rattle.std.specs.Prelude.{◌≡◌, IfOk, length};

use class_store::{ClassStore, Closed, NoMemory};
use macek_run::{Report, macek_alone};
use macek_workers::macek;
use outside::{Gate, MemorySink, OpenGate};
use std::alloc::Global;
use std::sync::Wait;
use std::thread::Threads;
use test_support::{Flow, ends, owned};

/// The number of stripes of the stores of these tests.
pub const STRIPES: usize = 16;

/// What a run is given: its words, the text of the source, and the one read and the one write that fail (0: none does).
#[derive(Clone, Copy)]
pub struct Given<'a> {
    pub words: &'a [&'a str],
    pub text: &'a [u8],
    pub read: u64,
    pub write: u64,
}

/// A run of `macek` with nothing that fails.
pub fn asked<'a>(words: &'a [&'a str], text: &'a [u8]) -> Given<'a> {
    Given {
        words,
        text,
        read: 0,
        write: 0,
    }
}

// At most 1000 bytes at once, and this call fails.
fn flow(failing: u64) -> Flow {
    Flow {
        most: 1000,
        failing,
    }
}

/// How a run ended: its report, what the sink holds, and whether a write found no memory.
#[derive(Drop)]
pub struct Ran {
    pub report: Report,
    pub held: Vec<u8>,
    pub refused: bool,
}

/// A store of these tests, through which nothing went yet.
pub fn new_store(alloc: Global) -> Result<ClassStore, NoMemory>
    ensures { IfOk result (λ store. (store.stripes ≡ STRIPES) × (length store.last ≡ STRIPES)) }
{
    ClassStore::new(alloc, STRIPES)
}

/// A run with workers through this store.
pub fn run<R: Threads + Wait + Sync>(
    rt: &R,
    alloc: Global,
    store: &mut ClassStore,
    given: Given,
) -> Result<Ran, NoMemory>
    requires stripes { store.old.stripes ≡ STRIPES }
    requires width { length store.old.last ≡ STRIPES }
    ensures stripes { store.new.stripes ≡ STRIPES }
    ensures width { length store.new.last ≡ STRIPES }
{
    run_at(rt, alloc, store, given, &OpenGate)
}

/// The same, where each worker calls this gate before each parent.
pub fn run_at<R: Threads + Wait + Sync, G: Gate + Sync>(
    rt: &R,
    alloc: Global,
    store: &mut ClassStore,
    given: Given,
    gate: &G,
) -> Result<Ran, NoMemory>
    requires stripes { store.old.stripes ≡ STRIPES }
    requires width { length store.old.last ≡ STRIPES }
    ensures stripes { store.new.stripes ≡ STRIPES }
    ensures width { length store.new.last ≡ STRIPES }
{
    let words = owned(alloc, given.words)?;
    let (mut source, mut sink) = ends(alloc, given.text, flow(given.read), flow(given.write))?;
    let report = macek(rt, alloc, &words, &mut source, &mut sink, store, gate);
    ending(alloc, report, &sink)
}

/// A run on one thread.
pub fn run_alone(alloc: Global, given: Given) -> Result<Ran, NoMemory> {
    let words = owned(alloc, given.words)?;
    let (mut source, mut sink) = ends(alloc, given.text, flow(given.read), flow(given.write))?;
    let report = macek_alone(alloc, &words, &mut source, &mut sink);
    ending(alloc, report, &sink)
}

fn ending(alloc: Global, report: Report, sink: &MemorySink) -> Result<Ran, NoMemory> {
    let held = sink.held().to_vec(alloc)?;
    Ok(Ran {
        report,
        held,
        refused: sink.refused() > 0,
    })
}

/// The last closed level of a store: how many entries it has, and its keys.
#[derive(Drop)]
pub struct Last {
    pub entries: u64,
    pub keys: Vec<Vec<u8>>,
}

/// What the last closed level of a store of these tests has.
pub fn last_of(alloc: Global, store: &ClassStore) -> Result<Last, NoMemory>
    requires { length store.now.last ≡ STRIPES }
{
    let closed = store.last();
    let entries = entries_of(closed);
    let keys = keys_of(alloc, closed)?;
    Ok(Last { entries, keys })
}

fn entries_of(closed: &Closed) -> u64
    requires { length closed.now ≡ STRIPES }
{
    let mut entries = 0u64;
    for stripe in 0..STRIPES {
        entries = entries.saturating_add(closed.entries(stripe));
    }
    entries
}

fn keys_of(alloc: Global, closed: &Closed) -> Result<Vec<Vec<u8>>, NoMemory> {
    let rising = closed.rising(alloc)?;
    let mut keys = Vec::new(alloc);
    for i in 0..rising.len() {
        if let Some(key) = rising.get(i) {
            keys.push(key.bytes().to_vec(alloc)?)?;
        }
    }
    Ok(keys)
}
