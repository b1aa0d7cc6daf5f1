//! Reads a request: what its lines ask for together, or the first fault.
#![tactic(auto)]

mod columns;
mod filters;
mod read;
mod request;
mod sample;
mod values;

pub use filters::Filters;
pub use formats::{PrintMode, Refusal, Word};
pub use read::read_request;
pub use request::Request;
pub use request_lines::Version;
pub use sample::sample_request;
