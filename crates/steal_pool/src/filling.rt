// The deques of a new pool, and the seats at them.
ghost use Rattle.std.specs.Prelude.{◌≡◌, ◌+◌, ◌-◌, ◌<◌, ◌≤◌, ℕ, length, IfOk};
ghost use Rattle.steal_pool.specs.Rows.{owner_views, owner_deques, owner_flavors, seat_deques, AreOwners, AreFifo, AreRows, served};

use crate::seat::Seat;
use crate::seating::seats_of;
use std::alloc::{AllocError, Global};
use steal_deque::{Owner, filled};

/// A deque for each worker, with its share of the numbers.
pub(crate) fn owners_of(
    alloc: Global,
    parents: u64,
    workers: usize,
) -> Result<Vec<Owner>, AllocError>
    requires { (0 < workers) × (workers ≤ 64) }
    ensures owners { IfOk result (λ owners. AreOwners workers parents (served 0) (owner_views owners.items)) }
    ensures fifo { IfOk result (λ owners. AreFifo (owner_flavors owners.items)) }
{
    let mut owners = Vec::new(alloc);
    for number in 0..workers {
        owners.push(filled(alloc, number as u64, parents, workers as u64)?)?;
    }
    Ok(owners)
}

/// The seats of each shift.
pub(crate) fn rows_of(
    alloc: Global,
    owners: &mut [Owner],
    parents: u64,
) -> Result<Vec<Vec<Seat>>, AllocError>
    requires few { (0 < length owners.old) × (length owners.old ≤ 64) }
    requires owners { AreOwners (length owners.old) parents (served 0) (owner_views owners.old) }
    ensures deques { owner_deques owners.new ≡ owner_deques owners.old }
    ensures flavors { owner_flavors owners.new ≡ owner_flavors owners.old }
    ensures owners { IfOk result (λ _. AreOwners (length owners.old) parents (served (length owners.old)) (owner_views owners.new)) }
    ensures rows { IfOk result (λ rows. AreRows (length owners.old) parents (length owners.old) (owner_deques owners.old) rows.items) }
{
    let mut rows = Vec::new(alloc);
    for number in 0..owners.len() {
        rows.push(seats_of(alloc, owners, number)?)?;
    }
    Ok(rows)
}
