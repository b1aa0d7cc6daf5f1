// Seating a shift at the deques of the others.
ghost use Rattle.std.specs.Prelude.{◌≡◌, ◌+◌, ◌-◌, ◌<◌, ℕ, length, IfOk};
ghost use Rattle.crossbeam_deque.specs.Handles.{view, stealer_deque, worker_deque, worker_view, SameWorker};
ghost use Rattle.steal_deque.specs.Deque.{kept, given};
ghost use Rattle.steal_pool.specs.Ring.{view_at};
ghost use Rattle.steal_pool.specs.SeatViews.{seat_views};
ghost use Rattle.steal_pool.specs.Rows.{owner_views, owner_deques, owner_flavors, seat_deques, AreCut, others_of, IsRow, IsAround};

use crate::seat::Seat;
use std::alloc::{AllocError, Global};
use steal_deque::{Owner, hand_out};

/// A seat at this deque.
pub(crate) fn seat_at(own: &mut Owner) -> Result<Seat, AllocError>
    requires { 1 < (worker_view own.old).parts }
    ensures same { SameWorker own.old own.new }
    ensures seat { IfOk result (λ seat. (stealer_deque seat.thief ≡ worker_deque own.old) × (view seat.token ≡ given (worker_view own.old)) × (worker_view own.new ≡ kept (worker_view own.old))) }
{
    let thief = own.stealer()?;
    let token = hand_out(own);
    Ok(Seat { thief, token })
}

/// The seats of one shift, in the order in which it visits them.
pub(crate) fn seats_of(
    alloc: Global,
    owners: &mut [Owner],
    number: usize,
) -> Result<Vec<Seat>, AllocError>
    requires own { number < length owners.old }
    requires parts { (k : ℕ) → k < length owners.old → (k ≡ number → ⊥) → 1 < (view_at (owner_views owners.old) k).parts }
    ensures deques { owner_deques owners.new ≡ owner_deques owners.old }
    ensures flavors { owner_flavors owners.new ≡ owner_flavors owners.old }
    ensures cut { IfOk result (λ row. AreCut (others_of number) (owner_views owners.old) (owner_views owners.new)) }
    ensures row { IfOk result (λ row. IsRow number (length owners.old - 1) (owner_views owners.old) (seat_views row.items)) }
    ensures around { IfOk result (λ row. IsAround number (length owners.old - 1) (owner_deques owners.old) (seat_deques row.items)) }
{
    let mut row = Vec::new(alloc);
    for d in number + 1..owners.len() {
        row.push(seat_at(&mut owners[d])?)?;
    }
    for d in 0..number {
        row.push(seat_at(&mut owners[d])?)?;
    }
    Ok(row)
}
