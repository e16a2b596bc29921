//! The SQL texts of statements and queries, and their execution.

pub mod insert;
pub mod list_table;
pub mod names;
pub(crate) mod run;
pub mod select;
pub(crate) mod step;
pub mod update;
