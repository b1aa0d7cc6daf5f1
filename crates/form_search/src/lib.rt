//! The search for a least form, as definitions and lemmas: states of the search, what they tell of all forms of a class, and
//! what a step from one to the next keeps. Nothing here runs.
#![tactic(auto)]

pub mod laws;
