//! Tests that start threads: pools whose numbers workers take and steal, levels that many callers share, growth by workers,
//! and whole runs with workers.
#![tactic(auto)]

#[cfg(test)]
mod batches;
#[cfg(test)]
mod callers;
#[cfg(test)]
mod gates;
#[cfg(test)]
mod growth;
#[cfg(test)]
mod listings;
#[cfg(test)]
mod offers;
#[cfg(test)]
mod pools;
#[cfg(test)]
mod ran;
#[cfg(test)]
mod stores;
#[cfg(test)]
mod turns;
#[cfg(test)]
mod words;
