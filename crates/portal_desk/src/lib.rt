//! The desk: serves streams of requests over any keeper.
#![tactic(auto)]

mod desk;
mod devices;
pub mod laws;
mod playing;
mod reading;
mod sending;
mod served;
mod serving;

pub use crate::desk::Desk;
pub use crate::devices::{Counted, Failed, Sink, Source, read_again, write_again};
pub use crate::playing::play;
pub use crate::served::{Cause, ServeFault, Served};
pub use crate::serving::{pipe, serve_streams};
pub use portal_wire::Ending;
