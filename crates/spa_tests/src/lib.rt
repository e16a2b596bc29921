//! Tests the allocation: rows, instances, matchings, blocking pairs and the solver.
#![tactic(auto)]

#[cfg(test)]
mod tests;
