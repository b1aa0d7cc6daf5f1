use class_store::Pass;
use steal_pool::Shift;

/// What one worker has: its pass of the level, its shift of the pool, and how many tries it offered, once it has ended its part.
#[derive(Drop)]
pub struct Worker {
    pub pass: Pass,
    pub shift: Shift,
    pub answer: Option<u128>,
}
