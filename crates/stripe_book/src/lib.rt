//! The history of one stripe of a shared set, and the callers that write it.
//!
//! A stripe has a table of the kit's `atomic_table`, whose rule says what every thread may rely on: there is one book, whose history
//! is legal, and each caller's calls in that history are those that the caller made. The book lies behind the stripe's lock,
//! and each caller has a seat of its own. A call is `begin_call`, `enter`, `meet` and `seal`. No history is stored: it is known to
//! contracts alone.
#![tactic(auto)]

mod ends;
mod offer;
mod plays;
mod rule;
mod seats;
mod steps;
mod table;
mod view;

pub use ends::{Ended, open_stripe};
pub use histories::Reply;
pub use seats::{Book, Caller};
pub use std::alloc::AllocError as NoMemory;
pub use table::StripeTable;
pub use view::Phase;
