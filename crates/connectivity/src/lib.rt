//! Whether the matroid of a representation is connected, 3-connected or cosimple, by the ranks of its sets of columns
//! (Oxley, *Matroid Theory*, chapters 4 and 8). The ranks are those in the first factor. No memory is taken.
#![tactic(auto)]

mod cosimplicity;
mod separations;
mod side;

pub use cosimplicity::cosimple;
pub use separations::{connected, three_connected};
