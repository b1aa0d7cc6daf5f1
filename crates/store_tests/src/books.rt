// Whole calls on one stripe: their clauses say which history is left.
ghost use Rattle.std.specs.Prelude.{◌≡◌, ◌≢◌, ◌∷◌, ◌++◌, [], IfOk, length};
ghost use Rattle.histories.specs.declared.entry.Reply.TheVariants.{New as fresh, Again as known};
ghost use Rattle.histories.specs.SetObject.{keys_after, reply_to};
ghost use Rattle.histories.specs.History.{calls_by, entry};
ghost use Rattle.stripe_book.specs.declared.view.Phase.TheVariants.{Idle};

use link_set::Key;
use std::alloc::Global;
use std::test::*;
use stripe_book::{Book, Caller, Ended, NoMemory, Reply, StripeTable, open_stripe};

// One whole call.
fn call(table: &StripeTable, book: &mut Book, caller: &mut Caller, key: &Key, reply: Reply)
    requires book_table { book.old.table ≡ table.now.table }
    requires caller_table { caller.old.table ≡ table.now.table }
    requires idle { caller.old.phase ≡ Idle }
    requires reply { reply ≡ reply_to (keys_after book.old.history) key.now }
    ensures book { book.new ≡ record book.old { history = book.old.history ++ entry caller.old.number (length caller.old.mine) key.now reply ∷ [] } }
    ensures caller { caller.new ≡ record caller.old { phase = Idle; seen = book.old.history ++ entry caller.old.number (length caller.old.mine) key.now reply ∷ []; mine = caller.old.mine ++ entry caller.old.number (length caller.old.mine) key.now reply ∷ [] } }
{
    table.look(book, caller);
    table.begin_call(caller);
    table.enter(book, caller, key, reply);
    table.meet(book, caller);
    table.seal(caller);
}

// One caller with one call: the history has one entry.
fn one_call(alloc: Global, key: &Key) -> Result<Ended, NoMemory>
    ensures { IfOk result (λ ended. ended.history ≡ entry 0 0 key.now fresh ∷ []) }
{
    let (table, mut book, mut callers) = open_stripe(alloc, 1)?;
    let Some(mut caller) = callers.pop() else {
        unreachable!()
    };
    call(&table, &mut book, &mut caller, key, Reply::New);
    table.leave(&mut book, caller);
    Ok(table.end(book))
}

// Two callers by turns: the first offers a key, the second the same one, and the first another one.
fn by_turns(alloc: Global, key: &Key, other: &Key) -> Result<Ended, NoMemory>
    requires { key.now ≢ other.now }
    ensures { IfOk result (λ ended. ended.history ≡ entry 0 0 key.now fresh ∷ entry 1 0 key.now known ∷ entry 0 1 other.now fresh ∷ []) }
{
    let (table, mut book, mut callers) = open_stripe(alloc, 2)?;
    let Some(mut second) = callers.pop() else {
        unreachable!()
    };
    let Some(mut first) = callers.pop() else {
        unreachable!()
    };
    call(&table, &mut book, &mut first, key, Reply::New);
    call(&table, &mut book, &mut second, key, Reply::Again);
    call(&table, &mut book, &mut first, other, Reply::New);
    table.leave(&mut book, first);
    table.leave(&mut book, second);
    Ok(table.end(book))
}

#[test]
fn a_history_of_one_entry(rt: HostRuntime) -> Result<(), Fail> {
    let key = Key::of(rt.alloc(), &[1])?;
    let _ended = one_call(rt.alloc(), &key)?;
    Ok(())
}

// A key of one byte, and one of none.
fn two_keys(alloc: Global) -> Result<(Key, Key), NoMemory>
    ensures { IfOk result (λ keys. keys.0 ≢ keys.1) }
{
    let key = Key::of(alloc, &[1])?;
    let other = Key::of(alloc, &[])?;
    Ok((key, other))
}

#[test]
fn a_history_of_two_callers(rt: HostRuntime) -> Result<(), Fail> {
    let (key, other) = two_keys(rt.alloc())?;
    let _ended = by_turns(rt.alloc(), &key, &other)?;
    Ok(())
}
