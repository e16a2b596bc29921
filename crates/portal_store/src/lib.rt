//! A keeper that stores the world in a database; each change is one transaction.
#![tactic(auto)]

mod changing;
mod fault;
mod keeper;
pub mod laws;
mod opening;
pub mod reading;
mod store;

pub use store::{CreateFault, NotOpened, OpenFault, Store, UpgradeFault};
