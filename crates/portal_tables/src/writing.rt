//! Makes the tables, compares schemas, and writes lists and results.

pub(crate) mod make;
pub(crate) mod put;
pub(crate) mod results;
pub(crate) mod schema;
