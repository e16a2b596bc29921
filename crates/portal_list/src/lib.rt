//! Entries of a world in memory, the checks that rows of a world pass, and a keeper over entries.
#![tactic(auto)]

mod applicant_index;
mod changes;
mod copies;
mod entries;
mod from_rows;
mod instance;
mod joining;
mod keeper;
mod keys;
pub mod laws;
mod list_checks;
mod roll_checks;
mod second_round;
mod views;
mod world_checks;

pub use entries::Entries;
pub use from_rows::{RowsFault, WorldRows};
pub use keeper::ListKeeper;
