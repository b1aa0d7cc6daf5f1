//! Tests of requests, of the words of command lines, of sources and sinks, of growth, of whole runs, of runs that resume, and of questions
//! and their answers. The listings come from other programs than this one.
#![tactic(auto)]

#[cfg(test)]
mod adapters;
#[cfg(test)]
mod alone;
#[cfg(test)]
mod answers;
#[cfg(test)]
mod binary;
#[cfg(test)]
mod classes;
#[cfg(test)]
mod command_line;
#[cfg(test)]
mod cuts;
#[cfg(test)]
mod duals;
#[cfg(test)]
mod growth;
#[cfg(test)]
mod heads;
#[cfg(test)]
mod listings;
#[cfg(test)]
mod over;
#[cfg(test)]
mod requests;
#[cfg(test)]
mod resume;
#[cfg(test)]
mod resume_faults;
#[cfg(test)]
mod resume_listings;
#[cfg(test)]
mod runs;
#[cfg(test)]
mod sources;
#[cfg(test)]
mod texts;
#[cfg(test)]
mod twice;
