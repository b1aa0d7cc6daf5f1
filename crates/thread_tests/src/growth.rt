// Growth by workers.
ghost use Rattle.std.specs.Prelude.{◌<◌, ◌≤◌};

use crate::ran::{last_of, new_store};
use level_driver::first_level;
use outside::{Gate, HoldGate, OpenGate};
use request_reader::read_request;
use std::alloc::Global;
use std::process::Abort;
use std::sync::Wait;
use std::sync::atomic::{AtomicU64, Ordering};
use std::test::*;
use std::thread::Threads;
use workers::grow;

// The number of forms and of tries of each size above the rank, and how many entries and keys the store then has.
fn counts<R: Threads + Wait + Sync, G: Gate + Sync>(
    rt: &R,
    alloc: Global,
    text: &str,
    workers: usize,
    gate: &G,
) -> Result<Vec<(usize, u128, u64, usize)>, Fail>
    requires { (0 < workers) × (workers ≤ 64) }
{
    let request = read_request(text.as_bytes()).ok().ok_or("refused")?;
    let mut store = new_store(alloc)?;
    let mut level = first_level(alloc, &request)?;
    let mut counts = Vec::new(alloc);
    for _ in request.rank()..request.size() {
        level = grow(rt, alloc, &request, &level.forms, workers, &mut store, gate)?;
        let last = last_of(alloc, &store)?;
        counts.push((
            level.forms.len(),
            level.tried,
            last.entries,
            last.keys.len(),
        ))?;
    }
    Ok(counts)
}

fn fano_text() -> &'static str {
    "rank 3\nfield 2\nsize 7\n"
}

fn fano_counts() -> &'static [(usize, u128, u64, usize)] {
    &[(2, 4, 4, 2), (1, 6, 6, 1), (1, 2, 2, 1), (1, 1, 1, 1)]
}

// So many workers grow the matroids of this request as often as is wanted.
fn are_counted<R: Threads + Wait + Abort + Sync>(
    rt: &R,
    alloc: Global,
    text: &str,
    workers: usize,
    wanted: &[(usize, u128, u64, usize)],
) -> Result<(), Fail>
    requires { (0 < workers) × (workers ≤ 64) }
{
    let found = counts(rt, alloc, text, workers, &OpenGate)?;
    assert_eq!(rt; found.as_slice(), wanted);
    Ok(())
}

#[test]
fn any_number_of_workers(rt: HostRuntime) -> Result<(), Fail> {
    are_counted(&rt, rt.alloc(), fano_text(), 1, fano_counts())?;
    are_counted(&rt, rt.alloc(), fano_text(), 2, fano_counts())?;
    are_counted(&rt, rt.alloc(), fano_text(), 5, fano_counts())?;
    Ok(())
}

#[test]
fn a_product(rt: HostRuntime) -> Result<(), Fail> {
    let text = "rank 3\nfield 2 x 3\nsize 7\n";
    let wanted = [(2, 10, 10, 2), (1, 9, 9, 1), (1, 2, 2, 1), (0, 0, 0, 0)];
    are_counted(&rt, rt.alloc(), text, 3, &wanted)
}

#[test]
fn a_forbidden_minor(rt: HostRuntime) -> Result<(), Fail> {
    let text = "rank 3\nfield 2\nsize 7\nforbid K4\n";
    let wanted = [(2, 4, 4, 2), (1, 6, 6, 1), (0, 0, 0, 0), (0, 0, 0, 0)];
    are_counted(&rt, rt.alloc(), text, 2, &wanted)
}

#[test]
fn two_workers_meet(rt: HostRuntime) -> Result<(), Fail> {
    let gate = HoldGate::new(1, 10_000_000);
    let found = counts(&rt, rt.alloc(), fano_text(), 2, &gate)?;
    assert_eq!(rt; found.as_slice(), fano_counts());
    assert!(rt; gate.met(), "a worker came while another was held");
    Ok(())
}

#[test]
fn none_meets_on_one_thread(rt: HostRuntime) -> Result<(), Fail> {
    let gate = HoldGate::new(0, 1000);
    gate.before(&rt, 0, 0);
    gate.before(&rt, 1, 0);
    assert!(rt; !gate.met());
    Ok(())
}

/// Counts its calls, by the number of the parent.
#[derive(Drop)]
pub struct CountingGate {
    first: AtomicU64,
    second: AtomicU64,
    others: AtomicU64,
}

impl CountingGate {
    /// A gate that was not called yet.
    pub fn new() -> CountingGate {
        CountingGate {
            first: AtomicU64::new(0),
            second: AtomicU64::new(0),
            others: AtomicU64::new(0),
        }
    }

    /// How often it was called before parent 0, parent 1 and any other parent.
    pub fn calls(&self) -> [u64; 3] {
        [
            self.first.load(Ordering::SeqCst),
            self.second.load(Ordering::SeqCst),
            self.others.load(Ordering::SeqCst),
        ]
    }
}

impl Gate for CountingGate {
    fn before<R: Wait + Sync>(&self, _rt: &R, _worker: u64, parent: u64) {
        let calls = match parent {
            0 => &self.first,
            1 => &self.second,
            _ => &self.others,
        };
        calls.fetch_add(1, Ordering::SeqCst);
    }
}

// How often so many workers ask the gate before parent 0, parent 1 and any other parent.
fn asked_by<R: Threads + Wait + Sync>(
    rt: &R,
    alloc: Global,
    workers: usize,
) -> Result<[u64; 3], Fail>
    requires { (0 < workers) × (workers ≤ 64) }
{
    let gate = CountingGate::new();
    counts(rt, alloc, fano_text(), workers, &gate)?;
    Ok(gate.calls())
}

// The levels of sizes 3 to 6 have 1, 2, 1 and 1 forms.
#[test]
fn the_gate_is_asked_before_each_parent(rt: HostRuntime) -> Result<(), Fail> {
    assert_eq!(rt; asked_by(&rt, rt.alloc(), 1)?, [4, 1, 0]);
    assert_eq!(rt; asked_by(&rt, rt.alloc(), 2)?, [4, 1, 0]);
    assert_eq!(rt; asked_by(&rt, rt.alloc(), 5)?, [4, 1, 0]);
    Ok(())
}
