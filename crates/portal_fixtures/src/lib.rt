//! Provides the test crates with scripted years, their callers, and a desk to play them on.
#![tactic(auto)]

mod callers;
pub mod changes;
mod desks;
pub mod fills;
pub mod rolls;
pub mod runs;
mod script;
pub mod second;
pub mod version1;
pub mod watched;
pub mod wide;
pub mod worked;
pub mod years;

pub use callers::{ANN, CYR, LEE, MOE, OFFICE};
pub use desks::{SEEN, fresh_lists, office_code, output_for, world_output};
pub use script::{Line, ask, cut, lines, play, reply_to_line, without_escapes};
