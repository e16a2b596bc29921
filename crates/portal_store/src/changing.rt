//! Makes the changes of a store, each in one transaction.

mod add_rows;
pub(crate) mod change;
mod fill;
mod lists;
mod phase;
mod placing;
mod second_round;
