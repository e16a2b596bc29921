//! Answers instance files: with the blocking pairs, the best matching, or the first fault.
#![tactic(auto)]

mod answer;
mod blocking;
pub mod laws;
mod refusal;
mod solution;

pub use answer::{LIMIT, Output, Task, answer_to};
