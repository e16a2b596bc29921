//! Finds the blocking pairs of a matching.
#![tactic(auto)]

mod blocking;
mod groups;
mod stable;
mod wants;

pub use blocking::{Block, blocking_pairs};
pub use spa_model::Letter;
pub use stable::is_stable;
pub use wants::better_off;
