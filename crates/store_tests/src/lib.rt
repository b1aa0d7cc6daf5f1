//! Tests of keys, of sets of keys, and of the shared set with its histories and its locks, on one thread.
#![tactic(auto)]

#[cfg(test)]
mod books;
#[cfg(test)]
mod form_keys;
#[cfg(test)]
mod key_rows;
#[cfg(test)]
mod key_sets;
#[cfg(test)]
mod levels;
#[cfg(test)]
mod rising_keys;
#[cfg(test)]
mod turns;
