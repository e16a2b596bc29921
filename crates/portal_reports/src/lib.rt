//! Writes the office's texts: the status of the round, and its result.
#![tactic(auto)]

mod allocation;
mod lines;
mod status;

pub use allocation::allocation_text;
pub use status::status_text;
