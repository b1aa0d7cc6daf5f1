// Callers of one level of a store, each in a thread of its own.
ghost use Rattle.std.specs.Prelude.{◌≡◌, ◌<◌, ◌≤◌, IfOk, length};
ghost use Rattle.std.specs.List.{All};
ghost use Rattle.thread_tests.specs.Named.{AllNamed, IsNamed};

use class_store::{ClassStore, Closed, OpenLevel, Pass, Pause};
use histories::Reply;
use link_set::Key;
use std::alloc::{AllocError, Global};
use std::sync::Wait;
use std::sync::atomic::{AtomicU64, Ordering};
use std::thread;
use std::thread::Threads;

/// A caller of a level: the keys that it is to offer, and how often it was told New and Again.
#[derive(Drop)]
pub struct Caller {
    keys: Vec<Key>,
    news: AtomicU64,
    agains: AtomicU64,
}

impl Caller {
    /// A caller that has offered nothing yet.
    pub fn new(keys: Vec<Key>) -> Caller {
        Caller {
            keys,
            news: AtomicU64::new(0),
            agains: AtomicU64::new(0),
        }
    }

    /// Whether it was told New just once.
    pub fn was_told_new(&self) -> bool {
        self.news.load(Ordering::SeqCst) == 1
    }

    // Whether each of its keys was offered.
    fn has_offered_all(&self) -> bool {
        let news = self.news.load(Ordering::SeqCst);
        let agains = self.agains.load(Ordering::SeqCst);
        news.saturating_add(agains) == self.keys.len() as u64
    }
}

/// Opens a level, lets the callers offer their keys, all side by side, and closes the level.
/// Each pauses while it holds the lock of its key's stripe.
///
/// `AllocError` where there was no memory for the level or for a key that was missing.
pub fn closed_level<R: Threads + Wait + Sync, P: Pause + Sync>(
    rt: &R,
    alloc: Global,
    store: &ClassStore,
    callers: &[Caller],
    pause: &P,
) -> Result<Closed, AllocError>
    requires some { 0 < length callers.now }
    requires few { length callers.now ≤ 64 }
    ensures { IfOk result (λ closed. length closed ≡ store.now.stripes) }
{
    let (level, mut passes) = store.open_level(alloc, callers.len())?;
    offer_all(rt, &level, callers, pause, &mut passes);
    let closed = level.close(rt, passes);
    for caller in callers {
        if !caller.has_offered_all() {
            return Err(AllocError);
        }
    }
    Ok(closed)
}

// Lets each caller offer its keys by a pass of its own, in as many threads as there are callers.
fn offer_all<R: Threads + Wait + Sync, P: Pause + Sync>(
    rt: &R,
    level: &OpenLevel,
    callers: &[Caller],
    pause: &P,
    passes: &mut Vec<Pass>,
)
    requires some { 0 < length callers.now }
    requires level { All (λ p. p.level ≡ level.now.level) passes.old.items }
    ensures { AllNamed passes.old.items passes.new.items }
{
    thread::for_each_mut(
        rt,
        passes.as_mut_slice(),
        callers.len(),
        &|i, pass: &mut Pass|
            requires { pass.now.level ≡ level.now.level }
        { offer_keys(rt, level, callers, pause, i, pass) },
    );
}

// Offers the keys of one caller. It stops where memory is wanting.
fn offer_keys<R: Wait + Sync, P: Pause>(
    rt: &R,
    level: &OpenLevel,
    callers: &[Caller],
    pause: &P,
    number: usize,
    pass: &mut Pass,
)
    requires { pass.old.level ≡ level.now.level }
    ensures { IsNamed pass.old pass.new }
{
    let Some(caller) = callers.get(number) else {
        return;
    };
    for key in &caller.keys {
        let Ok(key) = key.copy() else {
            return;
        };
        let told = match level.offer_at(rt, pass, key, pause) {
            Ok(Reply::New) => &caller.news,
            Ok(Reply::Again) => &caller.agains,
            Err(_) => return,
        };
        told.fetch_add(1, Ordering::SeqCst);
    }
}
