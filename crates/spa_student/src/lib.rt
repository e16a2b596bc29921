//! Computes the student-optimal stable matching.
#![tactic(auto)]

mod cuts;

pub use cuts::solve;
