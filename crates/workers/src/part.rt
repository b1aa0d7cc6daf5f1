// The whole part of one worker.
ghost use Rattle.std.specs.Prelude.{◌≡◌, ℕ, length, IfOk, OnOk};
ghost use Rattle.level_driver.specs.Grown.{IsParentLevel};
ghost use Rattle.steal_pool.specs.Shift.{HasEnded, StaysInPool, shift_parents, shift_taken};
ghost use Rattle.workers.specs.Offered.{IsSamePass};
ghost use Rattle.workers.specs.Parts.{DoesPart};

use crate::batches::empty_batches;
use crate::children::offer_children;
use class_store::{OpenLevel, Pass};
use level_driver::{Forbidden, FormList};
use outside::Gate;
use request_reader::Request;
use std::alloc::{AllocError, Global};
use std::sync::Wait;
use std::sync::atomic::{AtomicBool, Ordering};
use steal_pool::Shift;

/// The whole part of one worker: it takes parents from the pool until that has none left, and offers the key of each of their tries
/// by its pass. Before each parent it asks the gate. The result is the number of the tries of the parents that it took in this call.
///
/// `stop` is read before each parent. It is set where memory is wanting, so that the others don't go on in vain.
///
/// # Errors
///
/// `AllocError` where there was no memory for a key, for what is forbidden or for the store, or where `stop` was set. The shift may then have taken more
/// numbers, and the pass may have made some of their calls.
pub fn work<R: Wait + Sync, G: Gate>(
    rt: &R,
    alloc: Global,
    request: &Request,
    parents: &FormList,
    level: &OpenLevel,
    pass: &mut Pass,
    shift: &mut Shift,
    stop: &AtomicBool,
    gate: &G,
) -> Result<u128, AllocError>
    requires parents { (n : ℕ) × IsParentLevel request.now n parents.now }
    requires pass { pass.old.level ≡ level.now.level }
    requires shift { shift_parents shift.old ≡ length parents.now }
    ensures pass { IsSamePass pass.old pass.new }
    ensures shift { StaysInPool shift.old shift.new }
    ensures ended { OnOk result (HasEnded shift.new) }
    ensures part { IfOk result (λ tried. DoesPart request.now parents.now (shift_taken shift.old) (shift_taken shift.new) pass.old pass.new tried) }
{
    let answer = take_parents(rt, alloc, request, parents, level, pass, shift, stop, gate);
    if answer.is_err() {
        stop.store(true, Ordering::SeqCst);
    }
    answer
}

/// Takes parents until there is none left, and offers their tries.
fn take_parents<R: Wait + Sync, G: Gate>(
    rt: &R,
    alloc: Global,
    request: &Request,
    parents: &FormList,
    level: &OpenLevel,
    pass: &mut Pass,
    shift: &mut Shift,
    stop: &AtomicBool,
    gate: &G,
) -> Result<u128, AllocError>
    requires parents { (n : ℕ) × IsParentLevel request.now n parents.now }
    requires pass { pass.old.level ≡ level.now.level }
    requires shift { shift_parents shift.old ≡ length parents.now }
    ensures pass { IsSamePass pass.old pass.new }
    ensures shift { StaysInPool shift.old shift.new }
    ensures ended { OnOk result (HasEnded shift.new) }
    ensures part { IfOk result (λ tried. DoesPart request.now parents.now (shift_taken shift.old) (shift_taken shift.new) pass.old pass.new tried) }
{
    request.laws();
    let mode = request.mode();
    let forbidden = Forbidden::of(alloc, request.forbid())?;
    let mut batches = empty_batches(alloc, level.stripes())?;
    let mut tried = 0;
    for _ in rt.forever() {
        if stop.load(Ordering::SeqCst) {
            return Err(AllocError);
        }
        let Some(number) = shift.next(rt) else {
            return Ok(tried);
        };
        gate.before(rt, shift.number(), number);
        let Some(parent) = parents.get(number as usize) else {
            unreachable!()
        };
        let more = offer_children(
            rt,
            alloc,
            mode,
            &forbidden,
            parent,
            level,
            pass,
            batches.as_mut_slice(),
        )?;
        tried += u128::from(more);
    }
    unreachable!()
}
