//! Automorphisms of a representation: moves of a mode that take it to itself.
//!
//! Where such a move carries one column to another, the representation followed by the one is equivalent to the representation
//! followed by the other (Oxley, sections 6.3 and 6.4). So of the columns that the moves carry to each other, one stands for all.
#![tactic(auto)]

mod built;
mod ground;
mod images;
mod scalings;
mod search;
mod several;
mod single;

pub use search::find_symmetries;
pub use several::Symmetries;
pub use single::OpenMove;
