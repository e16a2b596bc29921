//! The rules (`portal_rules`) and the decision of each call (`portal_deciding`) as one crate for those above, with the laws on the best
//! result and on honest lists, which alone need the theory of the method.
#![tactic(auto)]

pub mod laws;

pub use portal_deciding::decide;
pub use portal_rules::{
    Act, Body, Call, Change, Code, CodeFault, Coded, Decision, HasLecturerRow, KeepFault, Keeper,
    Keyed, LecturerRow, LecturerView, Listing, Name, NameFault, OfficeView, Person, Phase,
    ProjectRow, Reply, Round, Sheet, StudentRow, StudentView, View, copy_keys, lecturer_left,
    listings_of, own_keys, project_left, students_at,
};
