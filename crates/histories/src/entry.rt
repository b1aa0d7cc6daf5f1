use std::collections::LinkedList;

/// What the set answers to an offered key.
#[derive(Clone, Copy)]
pub enum Reply {
    /// The key was missing, and now stands last.
    New,
    /// The key was there.
    Again,
}

/// One call as it stands in a history. Contracts alone speak of entries, and no value of one is made.
pub struct Entry {
    pub caller: u64,
    /// The number of the call among that caller's calls.
    pub call: u64,
    pub key: LinkedList<u8>,
    pub reply: Reply,
}
