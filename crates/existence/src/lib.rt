//! What exists: each question that the definitions ask of a representation has an answer, so there is a level of each size,
//! a list of what is listed of it and a number of tries, and each request has a listing.
#![tactic(auto)]

pub mod laws;
