//! Instances and matchings of student-project allocation with lecturer preferences over students.
#![tactic(auto)]

mod build;
mod fits;
mod instance;
pub mod laws;
mod letter;
mod matching;
mod pairs;

pub use instance::Instance;
pub use letter::Letter;
pub use matching::{BadMatching, Matching, MatchingFault};
pub use spa_rows::{
    BadInstance, InstanceFault, InstanceRows, Key, KeyFault, LecturerLine, PairLine, ProjectLine,
    StudentLine,
};
