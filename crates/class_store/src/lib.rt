//! The class store: the set of the keys of a level, which many callers share.
//!
//! A level is opened with a pass for each caller. Each key belongs to one stripe, and a stripe lies behind a lock of its own.
//! An offer of a key is entered in the history of its stripe in one step, and is told whether the key was new.
//! When all callers are done the level is closed: what is left are the histories, and the keys that were told New.
#![tactic(auto)]

mod batch;
mod close;
mod closed;
mod key_list;
mod level;
mod offer;
mod offer_batch;
mod opened;
mod pass;
mod pause;
mod rising;
mod store;

pub use batch::KeyBatch;
pub use closed::{Closed, ClosedStripe};
pub use histories::Reply;
pub use key_list::KeyList;
pub use level::OpenLevel;
pub use link_set::Key;
pub use pass::Pass;
pub use pause::{NoPause, Pause};
pub use std::alloc::AllocError as NoMemory;
pub use store::ClassStore;
