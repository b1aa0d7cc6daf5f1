// The turns of two stripes.
ghost use Rattle.std.specs.Prelude.{◌≡◌, IfOk, length};

use link_set::LinkSet;
use std::alloc::Global;
use std::test::*;
use stripe_book::open_stripe;
use stripe_turn::{NoMemory, Stripe, open_turns};

// A stripe without entries.
fn empty_stripe(alloc: Global) -> Result<Stripe, NoMemory> {
    let (_table, book, _callers) = open_stripe(alloc, 1)?;
    Ok(Stripe {
        set: LinkSet::new(alloc)?,
        book,
        entries: 0,
    })
}

// Two stripes without entries.
fn two_stripes(alloc: Global) -> Result<Vec<Stripe>, NoMemory>
    ensures { IfOk result (λ stripes. length stripes.items ≡ 2) }
{
    let first = empty_stripe(alloc)?;
    let second = empty_stripe(alloc)?;
    Ok(vec![in alloc; first, second]?)
}

#[test]
fn two_stripes_are_held_and_given_back(rt: HostRuntime) -> Result<(), Fail> {
    let alloc = rt.alloc();
    let (turns, mut seats) = open_turns(alloc, two_stripes(alloc)?, 1)?;
    let Some(mut turn) = seats.pop() else {
        unreachable!()
    };
    let first = turns.lock(&rt, &mut turn, 0);
    let second = turns.lock(&rt, &mut turn, 1);
    assert_eq!(rt; first.entries, 0);
    assert_eq!(rt; second.entries, 0);
    turns.unlock(&mut turn, 1, second);
    turns.unlock(&mut turn, 0, first);
    let again = turns.lock(&rt, &mut turn, 1);
    assert_eq!(rt; again.set.len(), 0);
    turns.unlock(&mut turn, 1, again);
    Ok(())
}
