//! Reads rolls and instance files as CSV, and writes the result as CSV.
#![tactic(auto)]

mod allocation;
mod fault;
mod fields;
mod instance;
mod line;
mod reading;
mod rolls;

pub use allocation::write_allocation;
pub use fault::RollFault;
pub use instance::read_instance;
pub use rolls::{read_lecturers, read_projects, read_students};
