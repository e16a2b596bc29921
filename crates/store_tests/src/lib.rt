//! Tests the tables, and the store in both rounds.
#![tactic(auto)]

#[cfg(test)]
mod tests;
