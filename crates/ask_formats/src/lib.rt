//! What may be asked of represented matroids, as definitions that contracts cite: which words ask for what, what answers a
//! question, and how asking ended.
#![tactic(auto)]

pub mod laws;
mod status;

pub use status::AskStatus;
