// Workers are given passes and shifts, and give them back.
ghost use Rattle.std.specs.Prelude.{◌≡◌, ◌+◌, ◌<◌, ◌≤◌, ◌++◌, ◌∷◌, ℕ, List, Some, None, map, sum, length, IfOk, IfSome, vec_len, vec_capacity};

use crate::worker::Worker;
use arrayvec::ArrayVec;
use class_store::Pass;
use std::alloc::{AllocError, Global};
use steal_pool::Shift;

/// The answers of all workers, one for each.
pub(crate) type Answers = ArrayVec<Option<u128>, 64>;

/// A worker for each pass and shift.
pub(crate) fn seat(
    alloc: Global,
    passes: Vec<Pass>,
    shifts: Vec<Shift>,
) -> Result<Vec<Worker>, AllocError>
    requires { vec_len passes ≡ vec_len shifts }
    ensures passes { IfOk result (λ workers. map (λ w. w.pass) workers.items ≡ passes.items) }
    ensures shifts { IfOk result (λ workers. map (λ w. w.shift) workers.items ≡ shifts.items) }
    ensures count { IfOk result (λ workers. vec_len workers ≡ vec_len passes) }
{
    let mut passes = passes.into_iter();
    let mut shifts = shifts.into_iter();
    let mut workers = Vec::with_capacity(alloc, passes.len())?;
    for _ in 0..passes.len() {
        let Some(pass) = passes.next() else {
            unreachable!()
        };
        let Some(shift) = shifts.next() else {
            unreachable!()
        };
        workers.push(Worker {
            pass,
            shift,
            answer: None,
        })?;
    }
    Ok(workers)
}

/// Gives the passes and the shifts back, in their order, and the answers beside them. It takes no memory.
pub(crate) fn unseat(
    workers: Vec<Worker>,
    passes: &mut Vec<Pass>,
    shifts: &mut Vec<Shift>,
) -> Answers
    requires few { vec_len workers ≤ 64 }
    requires room_passes { vec_len passes.old + vec_len workers ≤ vec_capacity passes.old }
    requires room_shifts { vec_len shifts.old + vec_len workers ≤ vec_capacity shifts.old }
    ensures passes { passes.new.items ≡ passes.old.items ++ map (λ w. w.pass) workers.items }
    ensures shifts { shifts.new.items ≡ shifts.old.items ++ map (λ w. w.shift) workers.items }
    ensures answers { result.items ≡ map (λ w. w.answer) workers.items }
{
    let mut answers = ArrayVec::new();
    for worker in workers {
        let Worker {
            pass,
            shift,
            answer,
        } = worker;
        passes.push_reserved(pass);
        shifts.push_reserved(shift);
        answers.push(answer);
    }
    answers
}
