ghost use Rattle.std.specs.Prelude.{◌≡◌, ◌≤◌, [], IfOk, vec_len, map, replicate, length, Some, ℕ, slice_index};
ghost use Rattle.stripe_turn.specs.Rule.{tables_in, tables_of};

use crate::rule::Again;
use crate::stripe::{Stripe, Tables};
use crate::turn::{Turn, Turns};
use arrayvec::ArrayVec;
use atomic_table::{Seat, Table};
use std::alloc::{AllocError, Global};
use std::snapshot::Snapshot;

/// The turns of these stripes, all free, and a seat for each caller, which holds none.
///
/// `NoMemory` where there was no memory for the table, its slots or the list of seats.
pub fn open_turns(
    alloc: Global,
    stripes: Vec<Stripe>,
    callers: usize,
) -> Result<(Turns, Vec<Turn>), AllocError>
    requires some { 1 ≤ vec_len stripes }
    requires few { vec_len stripes ≤ 64 }
    requires some_callers { 1 ≤ callers }
    requires few_callers { callers ≤ 64 }
    ensures tables { IfOk result (λ r. r.0.tables ≡ tables_in stripes.items) }
    ensures seats { IfOk result (λ r. r.1.items ≡ replicate callers (record { turns = r.0.turns; tables = r.0.tables; held = [] })) }
{
    let about = Tables {
        of: Snapshot::of(&stripes),
    };
    let words = [0u64; 64];
    let count = stripes.len();
    let slots = filled(alloc, stripes)?;
    let (turns, mut turn) = made(alloc, &words[..count], slots, &about)?;
    let mut all = Vec::with_capacity(alloc, callers)?;
    for _ in 0..callers {
        all.push(turns.another(&mut turn))?;
    }
    Ok((turns, all))
}

// The turns over these slots, and the first seat.
fn made(
    alloc: Global,
    words: &[u64],
    slots: Vec<Option<Stripe>>,
    about: &Tables,
) -> Result<(Turns, Turn), AllocError>
    requires slots { slots.items ≡ map Some about.now.of.value.items }
    requires width { length words.now ≡ length (tables_of about.now) }
    requires few { length words.now ≤ 64 }
    requires free { (i : ℕ) → slice_index words.now i ≡ 0 }
    ensures tables { IfOk result (λ r. r.0.tables ≡ tables_of about.now) }
    ensures turn { IfOk result (λ r. r.1 ≡ record { turns = r.0.turns; tables = r.0.tables; held = [] }) }
{
    let Ok((table, seat)) = Table::new(alloc, words, slots, about) else {
        return Err(AllocError);
    };
    Ok((Turns { table }, idle_turn(seat)))
}

// A turn that holds no stripe.
fn idle_turn(seat: Seat<Option<Stripe>, Tables>) -> Turn
    requires { seat.me.1 ≡ [] }
    ensures { result ≡ record { turns = seat.table_id; tables = tables_of seat.me.0; held = [] } }
{
    Turn {
        held: ArrayVec::new(),
        seat,
    }
}

// Each stripe in a slot.
fn filled(alloc: Global, stripes: Vec<Stripe>) -> Result<Vec<Option<Stripe>>, AllocError>
    ensures { IfOk result (λ r. r.items ≡ map Some stripes.items) }
{
    let mut slots = Vec::with_capacity(alloc, stripes.len())?;
    for stripe in stripes {
        slots.push(Some(stripe))?;
    }
    Ok(slots)
}

impl Turns {
    // One more seat, which holds no turn.
    fn another(&self, turn: &mut Turn) -> Turn
        requires table { turn.old.turns ≡ self.now.turns }
        requires some { 1 ≤ length self.now.tables }
        ensures same { turn.new ≡ turn.old }
        ensures other { result ≡ record turn.old { held = [] } }
    {
        let seat = self.table.shared.split_seat::<Again>(&mut turn.seat);
        idle_turn(seat)
    }
}
