//! What a history of calls on the shared set tells of a level: where each try of a size was offered once, by its key, the keys
//! told New are those of the level, in whatever order the calls came.
#![tactic(auto)]

pub mod laws;
