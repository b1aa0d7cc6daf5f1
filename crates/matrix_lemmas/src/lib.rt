//! What holds of the nine fields, of sums, matrices and independent columns over a field, and of sets of columns as masks.
//! The crate has lemmas alone, for those that stand on it.
#![tactic(auto)]
