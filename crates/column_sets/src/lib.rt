//! Sets of columns, by their masks: the walk over them, and which columns of a list they pick.
#![tactic(auto)]

mod columns;
mod sets;

pub use columns::{bases_of_columns, few_bases_of_columns, independent_in, picked};
pub use sets::{
    FewSets, complement, few_sets_of_size, first_of_size, first_set, in_set, set_count,
    sets_of_size,
};
