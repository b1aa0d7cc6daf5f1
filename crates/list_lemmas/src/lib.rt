//! What holds of lists whatever is in them. The crate has lemmas alone, for those that stand on it.
#![tactic(auto)]
