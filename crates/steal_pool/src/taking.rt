// Taking the next number.
ghost use Rattle.std.specs.Prelude.{◌≡◌, ◌+◌, ◌<◌, ◌≤◌, ℕ, List, [], ◌∷◌, ◌++◌, length, MatchOption};
ghost use Rattle.std.specs.List.{Contains};
ghost use Rattle.crossbeam_deque.specs.Handles.{view, IsPassOf, SamePass, stealer_deque, worker_flavor, worker_view, SameWorker};
ghost use Rattle.steal_deque.specs.Deque.{GotTask};
ghost use Rattle.steal_pool.specs.Ring.{IsShift, takings, view_at};
ghost use Rattle.steal_pool.specs.SeatViews.{seat_views};
ghost use Rattle.steal_pool.specs.Rows.{KeepsParts};

use crate::seat::Seat;
use std::sync::Wait;
use steal_deque::{Owner, Task, pop_one};

/// The next number: from the own deque, and once that was found empty from the others in turn. None where all were found empty.
pub(crate) fn next_number<R: Wait>(
    rt: &R,
    deques: usize,
    number: u64,
    parents: u64,
    own: &mut Owner,
    others: &mut [Seat],
    done: &mut usize,
) -> Option<u64>
    requires shift { IsShift deques number parents done.old (worker_view own.old ∷ seat_views others.old) }
    requires fifo { worker_flavor own.old ≡ 0 }
    ensures shift { IsShift deques number parents done.new (worker_view own.new ∷ seat_views others.new) }
    ensures same { SameWorker own.old own.new }
    ensures kept { KeepsParts (worker_view own.old) (worker_view own.new) others.old others.new }
    ensures done { done.old ≤ done.new }
    ensures left { MatchOption result (done.new ≡ deques) (λ _. done.new < deques) }
    ensures taken { MatchOption result (takings (worker_view own.new ∷ seat_views others.new) ≡ takings (worker_view own.old ∷ seat_views others.old)) (λ p. (p < parents) × ¬ (Contains (takings (worker_view own.old ∷ seat_views others.old)) p) × (takings (worker_view own.new ∷ seat_views others.new) ≡ takings (worker_view own.old ∷ seat_views others.old) ++ p ∷ [])) }
{
    if *done == 0 {
        match pop_one(rt, own) {
            Task::Number(p) => return Some(p),
            Task::End => *done = 1,
        }
    }
    while *done <= others.len() {
        match others[*done - 1].take(rt) {
            Task::Number(stolen) => return Some(stolen),
            Task::End => *done += 1,
        }
    }
    None
}
