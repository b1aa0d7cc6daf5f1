// The level after a level, grown by workers.
ghost use Rattle.std.specs.Prelude.{◌≡◌, ◌+◌, ◌^◌, ◌<◌, ◌≤◌, ℕ, length, unwrap_or, IsSome, IfOk, OnOk, OnErr, IfSome};
ghost use Rattle.std.specs.List.{All, sum_by};
ghost use Rattle.level_driver.specs.Grown.{IsLevelOf, AreTriesOf, IsParentLevel};
ghost use Rattle.class_store.specs.Seen.{AreOfCallersBelow};
ghost use Rattle.workers.specs.Store.{HoldsTriesOf};

use crate::forms::forms_of;
use crate::seats::{seat, unseat};
use crate::threads::run;
use class_store::{ClassStore, Closed};
use level_driver::{FormList, Level, next_size};
use outside::Gate;
use request_reader::Request;
use std::alloc::{AllocError, Global};
use std::sync::Wait;
use std::sync::atomic::AtomicBool;
use std::thread::Threads;
use steal_pool::{fill, finish};

/// The level after a level of a request, as [`level_driver::grow_alone`] gives it, found by 1 to 64 workers.
///
/// Each worker does its part by one call of [`crate::work`]. The level that they shared is then the store's last closed level: the calls
/// on each stripe are one legal history of a set, with each worker's calls in its own order, and for each key there are as many entries
/// as there are tries with that key, one of them told New.
///
/// # Errors
///
/// `AllocError` where there was no memory for the workers, for a key or for the forms. The store is then as it was.
pub fn grow<R: Threads + Wait + Sync, G: Gate + Sync>(
    rt: &R,
    alloc: Global,
    request: &Request,
    parents: &FormList,
    workers: usize,
    store: &mut ClassStore,
    gate: &G,
) -> Result<Level, AllocError>
    requires parents { (n : ℕ) × IsParentLevel request.now n parents.now }
    requires some { 0 < workers }
    requires few { workers ≤ 64 }
    ensures forms { IfOk result (λ level. (n : ℕ) →
        IsParentLevel request.now n parents.now → IsLevelOf request.now (n + 1) level.forms) }
    ensures tried { IfOk result (λ level. (n : ℕ) →
        IsParentLevel request.now n parents.now → AreTriesOf request.now (n + 1) level.tried) }
    ensures holds { OnOk result ((n : ℕ) →
        IsParentLevel request.now n parents.now → HoldsTriesOf request.now (n + 1) store.new.last) }
    ensures callers { OnOk result (AreOfCallersBelow workers store.new.last) }
    ensures stripes { store.new.stripes ≡ store.old.stripes }
    ensures width { OnOk result (length store.new.last ≡ store.new.stripes) }
    ensures unchanged { OnErr result (store.new ≡ store.old) }
{
    request.laws();
    let (closed, tried) = closed_level(rt, alloc, request, parents, workers, store, gate)?;
    let keys = closed.rising(alloc)?;
    let size = next_size(request, parents);
    let forms = forms_of(alloc, &request.factors(), request.rank(), size, &keys)?;
    store.keep(closed);
    Ok(Level { forms, tried })
}

/// A level of the store to which the workers have offered all tries, closed, and the number of the tries.
fn closed_level<R: Threads + Wait + Sync, G: Gate + Sync>(
    rt: &R,
    alloc: Global,
    request: &Request,
    parents: &FormList,
    workers: usize,
    store: &ClassStore,
    gate: &G,
) -> Result<(Closed, u128), AllocError>
    requires parents { (n : ℕ) × IsParentLevel request.now n parents.now }
    requires some { 0 < workers }
    requires few { workers ≤ 64 }
    ensures width { IfOk result (λ r. length r.0 ≡ store.now.stripes) }
    ensures holds { IfOk result (λ r. (n : ℕ) → IsParentLevel request.now n parents.now → HoldsTriesOf request.now (n + 1) r.0) }
    ensures callers { IfOk result (λ r. AreOfCallersBelow workers r.0) }
    ensures tried { IfOk result (λ r. (n : ℕ) → IsParentLevel request.now n parents.now → AreTriesOf request.now (n + 1) r.1) }
{
    let mut passes = Vec::with_capacity(alloc, workers)?;
    let mut shifts = Vec::with_capacity(alloc, workers)?;
    let (level, new_passes) = store.open_level(alloc, workers)?;
    let new_shifts = fill(alloc, parents.len() as u64, workers)?;
    let mut seated = seat(alloc, new_passes, new_shifts)?;
    let stop = AtomicBool::new(false);
    run(
        rt,
        alloc,
        request,
        parents,
        &level,
        &stop,
        gate,
        &mut seated,
    );
    let answers = unseat(seated, &mut passes, &mut shifts);
    // Together the shifts took each parent just once.
    let _taken = finish(shifts);
    let Some(tried) = total_of(answers.as_slice()) else {
        return Err(AllocError);
    };
    Ok((level.close(rt, passes), tried))
}

/// The sum of the answers, where each is there.
fn total_of(answers: &[Option<u128>]) -> Option<u128>
    requires { sum_by (λ answer. unwrap_or answer 0) answers.now < 2 ^ 128 }
    ensures { IfSome result (λ total. All (λ answer. IsSome answer) answers.now × (total ≡ sum_by (λ answer. unwrap_or answer 0) answers.now)) }
{
    let mut total = 0;
    for answer in answers {
        total += (*answer)?;
    }
    Some(total)
}
