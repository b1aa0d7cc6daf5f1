// A batch that is offered while another stripe is held.
ghost use Rattle.std.specs.Prelude.{◌≡◌, IfOk, length};
ghost use Rattle.std.specs.List.{All};
ghost use Rattle.thread_tests.specs.Named.{AllNamed, IsNamed};

use class_store::{ClassStore, Closed, Key, KeyBatch, NoMemory, OpenLevel, Pass, Pause};
use std::alloc::Global;
use std::sync::Wait;
use std::sync::atomic::{AtomicBool, Ordering};
use std::test::*;
use std::thread;
use std::thread::Threads;

// What two callers tell each other: that a stripe is held, that a batch for another one came back, and that the first was held
// until then. Their keys are made in `alloc`.
#[derive(Drop)]
struct Overtaking {
    alloc: Global,
    held: AtomicBool,
    came_back: AtomicBool,
    overtaken: AtomicBool,
}

impl Pause for Overtaking {
    fn inside<R: Wait + Sync>(&self, _rt: &R, _stripe: usize) {
        self.held.store(true, Ordering::SeqCst);
        let came_back = becomes_true(&self.came_back);
        self.overtaken.store(came_back, Ordering::SeqCst);
    }
}

// Whether another thread sets this within some turns.
fn becomes_true(told: &AtomicBool) -> bool {
    for _ in 0..10_000_000 {
        if told.load(Ordering::SeqCst) {
            return true;
        }
        thread::yield_now();
    }
    false
}

// Offers a key, and pauses while it holds the key's stripe.
fn offer_and_hold<R: Wait + Sync>(
    rt: &R,
    level: &OpenLevel,
    overtaking: &Overtaking,
    pass: &mut Pass,
)
    requires { pass.old.level ≡ level.now.level }
    ensures { IsNamed pass.old pass.new }
{
    if let Ok(key) = Key::of(overtaking.alloc, &[0]) {
        let _told = level.offer_at(rt, pass, key, overtaking);
    }
}

// Offers a batch of one key, of another stripe, and says how many were new.
fn offer_batch_of_one<R: Wait + Sync>(
    rt: &R,
    alloc: Global,
    level: &OpenLevel,
    pass: &mut Pass,
) -> Option<u64>
    requires { pass.old.level ≡ level.now.level }
    ensures { IsNamed pass.old pass.new }
{
    let Ok(key) = Key::of(alloc, &[1]) else {
        return None;
    };
    let stripe = key.stripe(level.stripes());
    let mut keys = KeyBatch::new(alloc);
    keys.push(key);
    level.offer_batch(rt, pass, stripe, keys).ok()
}

// The first caller holds a stripe; the second one waits for that, and tells when its batch came back.
fn take_part<R: Wait + Sync>(
    rt: &R,
    level: &OpenLevel,
    overtaking: &Overtaking,
    number: usize,
    pass: &mut Pass,
)
    requires { pass.old.level ≡ level.now.level }
    ensures { IsNamed pass.old pass.new }
{
    if number == 0 {
        offer_and_hold(rt, level, overtaking, pass);
        return;
    }
    let held = becomes_true(&overtaking.held);
    let news = offer_batch_of_one(rt, overtaking.alloc, level, pass);
    overtaking
        .came_back
        .store(held && news == Some(1), Ordering::SeqCst);
}

// Lets both callers take part, each in a thread of its own.
fn take_parts<R: Threads + Wait + Sync>(
    rt: &R,
    level: &OpenLevel,
    overtaking: &Overtaking,
    passes: &mut Vec<Pass>,
)
    requires { All (λ p. p.level ≡ level.now.level) passes.old.items }
    ensures { AllNamed passes.old.items passes.new.items }
{
    thread::for_each_mut(
        rt,
        passes.as_mut_slice(),
        2,
        &|i, pass: &mut Pass|
            requires { pass.now.level ≡ level.now.level }
        { take_part(rt, level, overtaking, i, pass) },
    );
}

// A level of two passes through which both callers went.
fn closed_level<R: Threads + Wait + Sync>(
    rt: &R,
    store: &ClassStore,
    overtaking: &Overtaking,
) -> Result<Closed, NoMemory>
    ensures { IfOk result (λ closed. length closed ≡ store.now.stripes) }
{
    let (level, mut passes) = store.open_level(overtaking.alloc, 2)?;
    take_parts(rt, &level, overtaking, &mut passes);
    Ok(level.close(rt, passes))
}

// The keys of the bytes 0 and 1 are of two stripes.
#[test]
fn a_batch_goes_past_a_stripe_that_is_held(rt: HostRuntime) -> Result<(), Fail> {
    let alloc = rt.alloc();
    let store = ClassStore::new(alloc, 2)?;
    let overtaking = Overtaking {
        alloc,
        held: AtomicBool::new(false),
        came_back: AtomicBool::new(false),
        overtaken: AtomicBool::new(false),
    };
    let closed = closed_level(&rt, &store, &overtaking)?;
    assert!(rt;
        overtaking.overtaken.load(Ordering::SeqCst),
        "the batch came back first"
    );
    assert_eq!(rt; closed.entries(0), 1);
    assert_eq!(rt; closed.entries(1), 1);
    Ok(())
}
