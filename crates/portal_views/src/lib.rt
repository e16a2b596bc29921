//! Computes by queries what a student, a lecturer or the office sees. It works on rows, without
//! worlds.
#![tactic(auto)]

mod applicants;
mod catalogue;
mod contents;
mod lecturer;
mod lines;
mod missing;
mod office;
mod student;

pub use catalogue::catalogue_in;
pub use contents::{Contents, contents_in};
pub use lecturer::lecturer_view;
pub use lines::ApplicantLine;
pub use office::office_view;
pub use student::student_view;
