// What is called before each parent that a worker extends.
use std::sync::atomic::{AtomicBool, Ordering};
use std::sync::{Mutex, Wait};
use std::thread;

/// Is called by each worker before each parent that it extends. Nothing is promised of it, and it changes nothing that a
/// contract speaks of. A test may hold a worker by it.
pub trait Gate {
    /// The worker of this number is about to extend the parent of this number.
    fn before<R: Wait + Sync>(&self, rt: &R, worker: u64, parent: u64);
}

/// The gate that does nothing.
#[derive(Drop)]
pub struct OpenGate;

impl Gate for OpenGate {
    fn before<R: Wait + Sync>(&self, _rt: &R, _worker: u64, _parent: u64) {}
}

// What the gate's calls have come to.
#[derive(Clone, Copy, Drop)]
enum Held {
    // So many calls are still to pass.
    Passing(u64),
    // A call of this worker is held.
    By(u64),
    // The held call went on.
    Over,
}

/// Lets some calls pass, then holds one call until a call of another worker has come, for at most a number of turns. So a test
/// can see that two workers run beside each other.
#[derive(Drop)]
pub struct HoldGate {
    turns: u64,
    held: Mutex<Held>,
    met: AtomicBool,
}

impl HoldGate {
    /// A gate that lets the first `skip` calls pass, and holds the next one for at most `turns` turns. It takes no memory.
    pub fn new(skip: u64, turns: u64) -> HoldGate {
        HoldGate {
            turns,
            held: Mutex::new(Held::Passing(skip)),
            met: AtomicBool::new(false),
        }
    }

    /// Whether a call of another worker came while one was held.
    pub fn met(&self) -> bool {
        self.met.load(Ordering::SeqCst)
    }

    // Notes that a call has come, and says whether it is to be held.
    fn arrive<R: Wait>(&self, rt: &R, worker: u64) -> bool {
        let mut held = self.held.lock(rt);
        match *held {
            Held::Passing(0) => {
                *held = Held::By(worker);
                true
            }
            Held::Passing(calls) => {
                *held = Held::Passing(calls - 1);
                false
            }
            Held::By(other) => {
                if other != worker {
                    self.met.store(true, Ordering::SeqCst);
                    *held = Held::Over;
                }
                false
            }
            Held::Over => false,
        }
    }
}

impl Gate for HoldGate {
    fn before<R: Wait + Sync>(&self, rt: &R, worker: u64, _parent: u64) {
        if !self.arrive(rt, worker) {
            return;
        }
        for _ in 0..self.turns {
            if self.met() {
                return;
            }
            thread::yield_now();
        }
        *self.held.lock(rt) = Held::Over;
    }
}
