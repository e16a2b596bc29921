//! Tests the portal's decisions, its rolls and the keeper in lists through their public items.
#![tactic(auto)]

#[cfg(test)]
mod tests;
