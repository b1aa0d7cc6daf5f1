// What a pool's shifts took, all together.
use crate::shift::Shift;
use std::snapshot::Snapshot;

/// What the shifts of a pool took. The list of each is known to contracts alone, and takes no memory.
#[derive(Drop)]
pub struct Taken {
    pub(crate) parents: u64,
    pub(crate) shifts: Snapshot<Vec<Shift>>,
}
