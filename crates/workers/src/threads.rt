// All workers, handed to threads.
ghost use Rattle.std.specs.Prelude.{◌≡◌, ◌<◌, ℕ, length, vec_len};
ghost use Rattle.std.specs.List.{All};
ghost use Rattle.level_driver.specs.Grown.{IsParentLevel};
ghost use Rattle.workers.specs.Seats.{AllWorked, IsSeated, IsWorked};

use crate::part::work;
use crate::worker::Worker;
use class_store::OpenLevel;
use level_driver::FormList;
use outside::Gate;
use request_reader::Request;
use std::alloc::Global;
use std::sync::Wait;
use std::sync::atomic::AtomicBool;
use std::thread;
use std::thread::Threads;

/// Lets each worker do its part. As many threads are asked for as there are workers.
pub(crate) fn run<R: Threads + Wait + Sync, G: Gate + Sync>(
    rt: &R,
    alloc: Global,
    request: &Request,
    parents: &FormList,
    level: &OpenLevel,
    stop: &AtomicBool,
    gate: &G,
    workers: &mut Vec<Worker>,
)
    requires some { 0 < vec_len workers.old }
    requires parents { (n : ℕ) × IsParentLevel request.now n parents.now }
    requires seated { All (λ w. IsSeated level.now.level (length parents.now) w) workers.old.items }
    ensures { AllWorked request.now parents.now workers.old.items workers.new.items }
{
    let count = workers.len();
    thread::for_each_mut(
        rt,
        workers.as_mut_slice(),
        count,
        &|_, worker: &mut Worker|
            requires parents { (n : ℕ) × IsParentLevel request.now n parents.now }
            requires seated { IsSeated level.now.level (length parents.now) worker.now }
        { serve(rt, alloc, request, parents, level, stop, gate, worker) },
    );
}

/// Lets one worker do its part.
pub(crate) fn serve<R: Wait + Sync, G: Gate>(
    rt: &R,
    alloc: Global,
    request: &Request,
    parents: &FormList,
    level: &OpenLevel,
    stop: &AtomicBool,
    gate: &G,
    worker: &mut Worker,
)
    requires parents { (n : ℕ) × IsParentLevel request.now n parents.now }
    requires seated { IsSeated level.now.level (length parents.now) worker.old }
    ensures { IsWorked request.now parents.now worker.old worker.new }
{
    let answer = work(
        rt,
        alloc,
        request,
        parents,
        level,
        &mut worker.pass,
        &mut worker.shift,
        stop,
        gate,
    );
    worker.answer = answer.ok();
}
