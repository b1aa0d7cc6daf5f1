ghost use Rattle.std.specs.Prelude.{◌≡◌, ◌<◌, ◌≤◌};
ghost use Rattle.steal_pool.specs.Shift.{HasEnded, StaysInPool};
ghost use Rattle.steal_pool.specs.Pool.{AllStay, AllEnded};

use std::alloc::Global;
use std::sync::Wait;
use std::sync::atomic::{AtomicU64, Ordering};
use std::test::*;
use std::thread;
use std::thread::Threads;
use steal_pool::{NoMemory, Shift, fill, finish};

/// Takes numbers until the shift ends, and counts each.
fn take_all<R: Wait>(rt: &R, counts: &[AtomicU64], shift: &mut Shift)
    ensures same { StaysInPool shift.old shift.new }
    ensures ended { HasEnded shift.new }
{
    for _ in rt.forever() {
        let Some(number) = shift.next(rt) else {
            return;
        };
        if let Some(count) = counts.get(number as usize) {
            count.fetch_add(1, Ordering::SeqCst);
        }
    }
    unreachable!()
}

/// Takes all numbers of a pool in four threads.
fn take_in_threads<R: Threads + Wait + Sync>(rt: &R, counts: &[AtomicU64], shifts: &mut Vec<Shift>)
    ensures same { AllStay shifts.old.items shifts.new.items }
    ensures ended { AllEnded shifts.new.items }
{
    thread::for_each_mut(
        rt,
        shifts.as_mut_slice(),
        4,
        &|_, shift| take_all(rt, counts, shift),
    );
}

/// How often each of the numbers below `parents` is taken by `workers` shifts in four threads.
fn times_taken<R: Threads + Wait + Sync>(
    rt: &R,
    alloc: Global,
    parents: usize,
    workers: usize,
) -> Result<Vec<u64>, NoMemory>
    requires { (0 < workers) × (workers ≤ 64) }
{
    let mut counts = Vec::new(alloc);
    for _ in 0..parents {
        counts.push(AtomicU64::new(0))?;
    }
    let mut shifts = fill(alloc, parents as u64, workers)?;
    take_in_threads(rt, counts.as_slice(), &mut shifts);
    finish(shifts);
    let mut times = Vec::new(alloc);
    for count in &counts {
        times.push(count.load(Ordering::SeqCst))?;
    }
    Ok(times)
}

#[test]
fn one_shift_takes_all(rt: HostRuntime) -> Result<(), Fail> {
    let mut shifts = fill(rt.alloc(), 3, 2)?;
    assert_eq!(rt; shifts.len(), 2);
    let mut taken = [0; 3];
    let first = &mut shifts[0];
    for place in &mut taken {
        *place = first.next(&rt).unwrap_or(9);
    }
    assert_eq!(rt; first.next(&rt), None);
    taken.sort_unstable();
    assert_eq!(rt; taken, [0, 1, 2]);
    let second = &mut shifts[1];
    assert_eq!(rt; second.next(&rt), None);
    assert_eq!(rt; second.next(&rt), None);
    assert_eq!(rt; second.number(), 1);
    Ok(())
}

#[test]
fn no_number(rt: HostRuntime) -> Result<(), Fail> {
    let mut shifts = fill(rt.alloc(), 0, 1)?;
    assert_eq!(rt; shifts.len(), 1);
    assert_eq!(rt; shifts[0].next(&rt), None);
    Ok(())
}

#[test]
fn many_numbers_in_four_threads(rt: HostRuntime) -> Result<(), Fail> {
    let times = times_taken(&rt, rt.alloc(), 10_000, 64)?;
    assert_eq!(rt; times.len(), 10_000);
    for count in &times {
        assert_eq!(rt; *count, 1);
    }
    Ok(())
}
