//! Laws that show that the definitions of `matroid_theory` mean what they should, with the lemmas behind them.
#![tactic(auto)]

pub mod laws;
