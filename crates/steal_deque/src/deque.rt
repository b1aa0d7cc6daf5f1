// One deque: its rule, and the steps that keep it.
//
// A step that finds a deque empty can't be noted in what a pass knows. So end marks stand behind the numbers, and who takes one knows that no number
// is left.
ghost use Rattle.std.specs.Prelude.{◌≡◌, ◌+◌, ◌<◌, ◌≤◌, ℕ, List, [], ◌∷◌, ◌++◌, true, false, length, IfOk, IfErr, IfSome, OnOk, MatchOption, MatchResult};
ghost use Rattle.crossbeam_deque.specs.Handles.{view, IsPassOf, SamePass, worker_deque, stealer_deque, stealer_flavor, worker_flavor, worker_view, worker_port, SameWorker};
ghost use Rattle.steal_deque.specs.Deque.{knowledge, RuleHolds, times, GotTask, CanPut, PutTask, share, kept, given, both, IsFilled};

use crossbeam_deque::protocol::{Join, Lesson, Outcome, Protocol, Split};
use crossbeam_deque::{Pass, Steal, Stealer, Worker};
use std::alloc::{AllocError, Global};
use std::collections::LinkedList;
use std::sync::Wait;
use std::thread;

/// What a deque holds: numbers, and behind them one end mark for each shift.
#[derive(Clone, Copy, Drop)]
pub enum Task {
    Number(u64),
    End,
}

// What a pass knows of its deque: its parts of the right to know the whole, all numbers that were pushed, which of them it took, whether an end mark
// may stand there, and whether it took one. It exists in proofs alone.
pub struct Knowledge {
    pub parts: u64,
    pub pushed: LinkedList<u64>,
    pub taken: LinkedList<u64>,
    pub closed: bool,
    pub ended: bool,
}

// What was pushed is what was taken and what is queued, each number as often, and behind an end mark stands no number.
pub struct DequeRule;

impl Protocol<Task, Knowledge> for DequeRule {
    ghost use Rattle.std.specs.Prelude.{false, []};
    ghost use Rattle.steal_deque.specs.Deque.{knowledge, RuleHolds};

    ghost holds = { RuleHolds };

    ghost first = { knowledge 64 [] [] false false };

    ghost guest = { knowledge 0 [] [] false false };
}

// A task joins at the back.
pub struct Puts;

impl Outcome<Task, Knowledge> for Puts {
    ghost use Rattle.steal_deque.specs.Deque.{Put};

    ghost then = { Put };
}

// A task leaves at the front.
pub struct Takes;

impl Outcome<Task, Knowledge> for Takes {
    ghost use Rattle.steal_deque.specs.Deque.{Got};

    ghost then = { Got };
}

// A pass gives one of its parts away, or takes another's parts in.
pub struct Cut;

impl Split<Knowledge> for Cut {
    ghost use Rattle.steal_deque.specs.Deque.{kept, given};

    ghost left = { kept };

    ghost right = { given };
}

impl Join<Knowledge> for Cut {
    ghost use Rattle.steal_deque.specs.Deque.{both as joined, spent as used_up};

    ghost both = { joined };

    ghost spent = { used_up };
}

// What can be known from a pass's parts.
pub struct Total;

impl Lesson<Task, Knowledge> for Total {
    ghost use Rattle.steal_deque.specs.Deque.{Learned};

    ghost fact = { λ v _. Learned v };
}

/// The end of a deque whose worker pushes, and takes first.
pub type Owner = Worker<Task, Global, Knowledge, DequeRule>;

/// The end of a deque that another's worker takes at.
pub type Thief = Stealer<Task, Global, Knowledge, DequeRule>;

/// The pass of a thief.
pub type Token = Pass<Task, Knowledge, Global>;

/// Takes a task from the worker's own deque.
pub fn pop_one<R: Wait>(rt: &R, own: &mut Owner) -> Task
    requires { (0 < (worker_view own.old).parts) × (worker_flavor own.old ≡ 0) }
    ensures same { SameWorker own.old own.new }
    ensures got { GotTask (worker_view own.old) result (worker_view own.new) }
{
    for _ in rt.forever() {
        if let Some(task) = own.pop_as::<Takes>() {
            return task;
        }
    }
    unreachable!()
}

/// Takes a task from another's deque. An attempt that lost against another taker is made again.
pub fn steal_one<R: Wait>(rt: &R, thief: &Thief, token: &mut Token) -> Task
    requires { IsPassOf (stealer_deque thief.now) token.old × (0 < (view token.old).parts) }
    ensures same { SamePass token.old token.new }
    ensures got { GotTask (view token.old) result (view token.new) }
{
    for _ in rt.forever() {
        if let Steal::Success(task) = thief.steal_as::<Takes>(token) {
            return task;
        }
        thread::yield_now();
    }
    unreachable!()
}

/// Puts a task last, by the owner who has every part. A deque that can't grow is a want of memory.
fn put(own: &mut Owner, task: Task) -> Result<(), AllocError>
    requires { CanPut (worker_view own.old) task }
    ensures same { SameWorker own.old own.new }
    ensures put { OnOk result (PutTask (worker_view own.old) task (worker_view own.new)) }
{
    match own.push_as::<Puts>(task) {
        Ok(()) => Ok(()),
        Err(_) => Err(AllocError),
    }
}

/// A new deque with its share of the numbers below `parents`, each `workers` more than the one before, and behind them an end mark for each worker.
pub fn filled(alloc: Global, number: u64, parents: u64, workers: u64) -> Result<Owner, AllocError>
    requires { number < workers }
    ensures { IfOk result (λ own. IsFilled (worker_flavor own) (worker_view own) (share workers number parents)) }
{
    let mut own = Owner::fifo_as(alloc, 64)?;
    let mut next = number;
    while next < parents {
        put(&mut own, Task::Number(next))?;
        next = next.saturating_add(workers);
    }
    for _ in 0..workers {
        put(&mut own, Task::End)?;
    }
    Ok(own)
}

/// Hands out a pass of the deque.
pub fn hand_out(own: &mut Owner) -> Token
    requires { 1 < (worker_view own.old).parts }
    ensures same { SameWorker own.old own.new × IsPassOf (worker_deque own.old) result }
    ensures cut { (worker_view own.new ≡ kept (worker_view own.old)) × (view result ≡ given (worker_view own.old)) }
{
    own.another::<Cut>()
}

/// Takes a pass back.
pub fn take_back(own: &mut Owner, token: Token)
    requires { IsPassOf (worker_deque own.old) token × (0 < (worker_view own.old).parts) × (0 < (view token).parts) }
    ensures same { SameWorker own.old own.new }
    ensures joined { worker_view own.new ≡ both (worker_view own.old) (view token) }
{
    own.absorb::<Cut>(token);
}
