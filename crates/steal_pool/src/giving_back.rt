// Giving the passes of a pool back to the owners of its deques, who then know what was taken.
ghost use Rattle.std.specs.Prelude.{◌≡◌, ◌+◌, ◌-◌, ◌<◌, ◌≤◌, ℕ, [], Some, map, length};
ghost use Rattle.std.specs.List.{slice_get};
ghost use Rattle.arrayvec.specs.ArrayVec.{array_vec_len};
ghost use Rattle.crossbeam_deque.specs.Handles.{view, stealer_deque};
ghost use Rattle.steal_deque.specs.Deque.{both, Learned};
ghost use Rattle.steal_pool.specs.Ring.{ring, view_at};
ghost use Rattle.steal_pool.specs.SeatViews.{seat_views};
ghost use Rattle.steal_pool.specs.Rows.{IsAround};
ghost use Rattle.steal_pool.specs.Back.{place_view, place_deque, place_views, place_deques, seat_places, rows_views, HaveParts, AreBack, GoesRound};

use crate::seat::Seat;
use crate::shift::Shift;
use arrayvec::ArrayVec;
use steal_deque::{Owner, Total, take_back};

/// The owners of a pool's deques. A place may be blank.
pub type Owners = ArrayVec<Option<Owner>, 64>;

/// The seats of a pool's shifts.
pub type SeatRows = ArrayVec<Option<Vec<Seat>>, 64>;

/// Takes the shifts apart.
pub(crate) fn apart(shifts: Vec<Shift>) -> (Owners, SeatRows)
    requires { length shifts.items ≤ 64 }
    ensures owners { result.0.items ≡ map (λ s. Some s.own) shifts.items }
    ensures rows { result.1.items ≡ map (λ s. Some s.others) shifts.items }
{
    let mut owners = ArrayVec::new();
    let mut rows = ArrayVec::new();
    for shift in shifts {
        let Shift { own, others, .. } = shift;
        owners.push(Some(own));
        rows.push(Some(others));
    }
    (owners, rows)
}

/// The deque that a shift visits `j` places after its own.
pub(crate) fn ring_place(deques: usize, number: usize, j: usize) -> usize
    requires { (number < deques) × (j < deques) × (deques ≤ 64) }
    ensures { result ≡ ring deques number j }
{
    if number + j < deques {
        number + j
    } else {
        number + j - deques
    }
}

/// Gives the pass of a seat back to the owner at this place.
pub(crate) fn give_back(place: &mut Option<Owner>, seat: Seat)
    requires of { place_deque place.old ≡ Some (stealer_deque seat.thief) }
    requires parts { (0 < (place_view place.old).parts) × (0 < (view seat.token).parts) }
    ensures same { place_deque place.new ≡ place_deque place.old }
    ensures joined { place_view place.new ≡ both (place_view place.old) (view seat.token) }
{
    if let Some(own) = place {
        let Seat { thief: _, token } = seat;
        take_back(own, token);
    }
}

/// Gives the passes of a shift's seats back.
pub(crate) fn give_row(owners: &mut [Option<Owner>], number: usize, row: Vec<Seat>)
    requires own { (number < length owners.old) × (length owners.old ≤ 64) }
    requires around { IsAround number (length owners.old - 1) (place_deques owners.old) (seat_places row.items) }
    requires parts { HaveParts (place_views owners.old) × HaveParts (seat_views row.items) }
    ensures same { place_deques owners.new ≡ place_deques owners.old }
    ensures back { AreBack (place_views owners.old) (place_views owners.new) (seat_views row.items) [] }
{
    let deques = owners.len();
    let mut row = row;
    while let Some(seat) = row.pop() {
        let place = ring_place(deques, number, row.len() + 1);
        give_back(&mut owners[place], seat);
    }
}

/// Gives the passes of all seats back.
pub(crate) fn give_rows(owners: &mut [Option<Owner>], rows: SeatRows)
    requires count { (array_vec_len rows ≡ length owners.old) × (length owners.old ≤ 64) }
    requires rows { (i : ℕ) (row : _) → slice_get rows.items i ≡ Some row → GoesRound i (place_deques owners.old) row }
    requires parts { HaveParts (place_views owners.old) }
    ensures back { AreBack (place_views owners.old) (place_views owners.new) (rows_views rows.items) [] }
{
    let mut rows = rows;
    while let Some(row) = rows.pop() {
        if let Some(row) = row {
            give_row(owners, rows.len(), row);
        }
    }
}

/// What an owner then knows.
pub(crate) fn learn(place: &mut Option<Owner>)
    ensures same { place_view place.new ≡ place_view place.old }
    ensures learned { Learned (place_view place.old) }
{
    if let Some(own) = place {
        own.len_as::<Total>();
    }
}

/// What all owners then know.
pub(crate) fn learn_all(owners: &mut [Option<Owner>])
    ensures same { place_views owners.new ≡ place_views owners.old }
    ensures learned { (k : ℕ) → k < length owners.old → Learned (view_at (place_views owners.old) k) }
{
    for place in owners.iter_mut() {
        learn(place);
    }
}

/// Gives all passes back, and learns what the shifts took together.
pub(crate) fn settle(owners: &mut [Option<Owner>], rows: SeatRows)
    requires count { (array_vec_len rows ≡ length owners.old) × (length owners.old ≤ 64) }
    requires rows { (i : ℕ) (row : _) → slice_get rows.items i ≡ Some row → GoesRound i (place_deques owners.old) row }
    requires parts { HaveParts (place_views owners.old) }
    ensures back { AreBack (place_views owners.old) (place_views owners.new) (rows_views rows.items) [] }
    ensures learned { (k : ℕ) → k < length (place_views owners.new) → Learned (view_at (place_views owners.new) k) }
{
    give_rows(owners, rows);
    learn_all(owners);
}
