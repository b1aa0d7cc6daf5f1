//! Whether a matroid of few elements is a minor of a represented one (Oxley, *Matroid Theory*, chapter 3).
//!
//! The bases of both are put into tables of bits, so the search itself does no elimination. It goes through the sets that may be
//! contracted, and for each gives images to the elements one by one. What is left of the elements is deleted. Of two elements of
//! the minor that may change places the earlier one gets the lower image.
//!
//! What is looked up of a minor that is sought in many representations is made once, and so is the table of a representation in which
//! many minors are sought.
#![tactic(auto)]

mod search;
mod sought;
mod table;
mod test;
mod twins;
mod whole;

pub use sought::Sought;
pub use test::{Embedding, find_minor, has_minor, leaves_room};
pub use whole::Whole;
