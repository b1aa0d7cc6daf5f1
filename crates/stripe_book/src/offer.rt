use histories::Reply;
use link_set::Key;
use std::snapshot::Snapshot;

/// What a caller announces as it signs a call, for proofs alone: the snapshot of the key has no bytes, so no key is copied.
#[derive(Drop)]
pub struct Offer {
    pub key: Snapshot<Key>,
    pub reply: Reply,
}
