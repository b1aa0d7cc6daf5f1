//! Laws of requests: each text stands for one or is refused, each has its matroids and a listing, and growth can start from each text
//! or the text has a fault.
#![tactic(auto)]

pub mod laws;
