//! Runs the commands over a database file, from its opening to its close.
#![tactic(auto)]

mod closing;
mod job;
pub mod laws;
mod making;
mod piping;
mod reporting;
mod serving;
mod tables;
mod upgrading;

pub use closing::{Closed, NotCopied, close_files, release_store};
pub use job::OverFile;
pub use making::make_file;
pub use piping::pipe_file;
pub use reporting::report_file;
pub use serving::serve_file;
pub use upgrading::upgrade_file;
