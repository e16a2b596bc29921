//! The rows of an instance of student-project allocation, and the faults that rows can have.
#![tactic(auto)]

mod checks;
mod faults;
mod index;
mod key;
mod least;
pub mod limits;
mod lines;

pub use checks::{check_lines, check_lists, refuse};
pub use faults::{BadInstance, InstanceFault};
pub use index::{LineIndex, sort_rows};
pub use key::{Key, KeyFault};
pub use least::least_with;
pub use lines::{
    InstanceRows, LecturerLine, Line, ListNumbers, PairLine, ProjectLine, StudentLine,
};
