//! The rules of the portal: worlds, what each caller sees, what a call is answered and changes, and the laws that hold of them. A crate
//! of its own because readers, tables and stores need the rules, and not the code that decides.
#![tactic(auto)]

mod catalogue;
mod code;
pub mod collecting;
mod decision;
pub mod index;
mod keeper;
pub mod laws;
mod name;
mod phase;
mod room;
mod rows;
mod view;

pub use catalogue::{HasLecturerRow, listings_of};
pub use code::{Code, CodeFault};
pub use decision::{Act, Body, Call, Change, Decision, Reply, Sheet};
pub use keeper::{KeepFault, Keeper};
pub use name::{Name, NameFault};
pub use phase::{Phase, Round};
pub use room::{lecturer_left, own_keys, project_left, students_at};
pub use rows::{Coded, Keyed, LecturerRow, Listing, Person, ProjectRow, StudentRow, copy_keys};
pub use view::{LecturerView, OfficeView, StudentView, View};
