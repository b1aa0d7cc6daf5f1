// Two workers on one thread, one after the other.
ghost use Rattle.std.specs.Prelude.{◌≡◌, ℕ, IfOk, length};
ghost use Rattle.level_driver.specs.Grown.{IsParentLevel};
ghost use Rattle.steal_pool.specs.Shift.{shift_parents};

use class_store::{ClassStore, Closed, NoMemory, OpenLevel, Pass};
use level_driver::{FormList, first_level, grow_alone};
use outside::OpenGate;
use request_reader::{Request, read_request};
use std::alloc::Global;
use std::sync::Wait;
use std::sync::atomic::AtomicBool;
use std::test::*;
use steal_pool::{Shift, fill};
use workers::work;

// What two workers answer, one after the other on one thread, where the parents are the level of a size, and the level of the
// store that they shared. `stopped` says whether a third one found no memory before.
fn answers_in_turn<R: Wait + Sync>(
    rt: &R,
    alloc: Global,
    request: &Request,
    parents: &FormList,
    store: &ClassStore,
    stopped: bool,
) -> Result<(u128, u128, Closed), NoMemory>
    requires { (n : ℕ) × IsParentLevel request.now n parents.now }
    ensures { IfOk result (λ r. length r.2 ≡ store.now.stripes) }
{
    let (level, mut passes) = store.open_level(alloc, 2)?;
    let Some(mut second) = passes.pop() else {
        unreachable!()
    };
    let Some(mut first) = passes.pop() else {
        unreachable!()
    };
    let mut shifts = fill(alloc, parents.len() as u64, 2)?;
    let stop = AtomicBool::new(stopped);
    let (Some(later), Some(sooner)) = (shifts.pop(), shifts.pop()) else {
        unreachable!()
    };
    let a = answer(
        rt, alloc, request, parents, &level, &mut first, sooner, &stop,
    )?;
    let b = answer(
        rt,
        alloc,
        request,
        parents,
        &level,
        &mut second,
        later,
        &stop,
    )?;
    passes.push(first)?;
    passes.push(second)?;
    Ok((a, b, level.close(rt, passes)))
}

fn answer<R: Wait + Sync>(
    rt: &R,
    alloc: Global,
    request: &Request,
    parents: &FormList,
    level: &OpenLevel,
    pass: &mut Pass,
    shift: Shift,
    stop: &AtomicBool,
) -> Result<u128, NoMemory>
    requires parents { (n : ℕ) × IsParentLevel request.now n parents.now }
    requires pass { pass.old.level ≡ level.now.level }
    requires shift { shift_parents shift ≡ length parents.now }
    ensures { (pass.new.level ≡ pass.old.level) × (pass.new.number ≡ pass.old.number) }
{
    let mut shift = shift;
    work(
        rt, alloc, request, parents, level, pass, &mut shift, stop, &OpenGate,
    )
}

// The same for the parents of size 4, with their six tries of one class.
fn answers_at_size_five<R: Wait + Sync>(
    rt: &R,
    alloc: Global,
    store: &ClassStore,
    stopped: bool,
) -> Result<Result<(u128, u128, Closed), NoMemory>, Fail>
    ensures { IfOk result (λ answers. IfOk answers (λ r. length r.2 ≡ store.now.stripes)) }
{
    let request = read_request(b"rank 3\nfield 2\nsize 5\n")
        .ok()
        .ok_or("refused")?;
    if request.rank() + 1 < request.size() {
        let first = first_level(alloc, &request)?;
        let level = grow_alone(alloc, &request, &first.forms)?;
        return Ok(answers_in_turn(rt, alloc, &request, &level.forms, store, stopped));
    }
    Err(Fail::new("another size"))
}

#[test]
fn the_first_takes_all(rt: HostRuntime) -> Result<(), Fail> {
    let store = ClassStore::new(rt.alloc(), 1)?;
    let (a, b, closed) = answers_at_size_five(&rt, rt.alloc(), &store, false)??;
    assert_eq!(rt; (a, b), (6, 0));
    assert_eq!(rt; closed.entries(0), 6);
    assert_eq!(rt; closed.rising(rt.alloc())?.len(), 1);
    Ok(())
}

#[test]
fn a_worker_ends_where_another_found_no_memory(rt: HostRuntime) -> Result<(), Fail> {
    let store = ClassStore::new(rt.alloc(), 1)?;
    let answers = answers_at_size_five(&rt, rt.alloc(), &store, true)?;
    assert!(rt; answers.is_err());
    Ok(())
}
