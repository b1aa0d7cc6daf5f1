use std::sync::Wait;

/// What is done while the lock of a stripe is held. Nothing is promised of it.
pub trait Pause {
    /// The lock of this stripe is held.
    fn inside<R: Wait + Sync>(&self, rt: &R, stripe: usize);
}

/// The pause that does nothing.
#[derive(Drop)]
pub struct NoPause;

impl Pause for NoPause {
    fn inside<R: Wait + Sync>(&self, _rt: &R, _stripe: usize) {}
}
