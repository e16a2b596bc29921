//! Runs the program's commands, over any reader, writer and databases.
#![tactic(auto)]

mod commands;
mod databases;
mod expecting;
mod init;
mod input;
mod output;
mod place;
mod serve;

pub use commands::{run, run_command};
pub use databases::{Databases, NamedFiles};
pub use output::say;
pub use place::Place;
pub use sqlite::Unknown;
