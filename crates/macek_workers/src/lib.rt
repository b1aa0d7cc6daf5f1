//! The top call with workers: it reads the words and the request, and writes the listing, each level as soon as its workers
//! have grown it through the store.
#![tactic(auto)]

mod listing;
mod run;

pub use run::macek;
