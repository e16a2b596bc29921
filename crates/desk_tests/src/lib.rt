//! Tests the desk over a keeper in lists, by the bytes of its requests and replies.
#![tactic(auto)]

#[cfg(test)]
mod tests;
