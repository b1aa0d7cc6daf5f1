//! The states of the fast search for a form as it runs: columns, groups of tied rows and marked elements, and the steps from one
//! state to the next, each with what it keeps of the forms of the class.
#![tactic(auto)]

pub mod above;
pub mod codes;
pub mod columns;
pub mod groups;
pub mod lists;
pub mod numbers;
pub mod states;
pub mod steps;
pub mod weights;
