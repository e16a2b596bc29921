//! Serves connections over any keeper: from a listener, in turn, or a reader and a writer.
#![tactic(auto)]

mod listening;
mod reporting;
mod server;
mod timeouts;

pub use listening::{serve_on, serve_one, serve_stream};
pub use reporting::report;
pub use server::{Connections, Ended, Hall, Outcome, Service, serve_each};
pub use timeouts::{TimedRead, TimedWrite};
