//! Laws of stable matchings: a best one for students exists, the lecturers' worst; honest lists are best, waiting never pays.
#![tactic(auto)]

pub mod laws;
