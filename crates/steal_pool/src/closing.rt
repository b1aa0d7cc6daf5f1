// The end of a pool.
ghost use Rattle.std.specs.Prelude.{◌≡◌};
ghost use Rattle.std.specs.List.{concat};
ghost use Rattle.steal_pool.specs.Pool.{IsPool, pool_parents, lists_taken, IsProper, IsWhole, AllEnded};
ghost use Rattle.steal_pool.specs.Taken.{taken_parents, taken_lists};

use crate::giving_back::{apart, settle};
use crate::shift::Shift;
use crate::taken::Taken;
use std::snapshot::Snapshot;

/// Ends a pool, and says what its shifts took together: no number twice, and each number once where every shift has ended.
///
/// It wants all shifts of one pool, in the order of their numbers, as `fill` gave them. It takes no memory.
pub fn finish(shifts: Vec<Shift>) -> Taken
    requires { IsPool shifts.items }
    ensures parents { taken_parents result ≡ pool_parents shifts.items }
    ensures lists { taken_lists result ≡ lists_taken shifts.items }
    ensures proper { IsProper (taken_parents result) (concat (taken_lists result)) }
    ensures whole { AllEnded shifts.items → IsWhole (taken_parents result) (concat (taken_lists result)) }
{
    let lists = Snapshot::of(&shifts);
    let parents = parents_of(&shifts);
    let (mut owners, rows) = apart(shifts);
    settle(owners.as_mut_slice(), rows);
    Taken {
        parents,
        shifts: lists,
    }
}

/// How many numbers the pool had.
fn parents_of(shifts: &[Shift]) -> u64
    ensures { result ≡ pool_parents shifts.now }
{
    match shifts.first() {
        Some(shift) => shift.parents,
        None => 0,
    }
}
