//! Tests instances, which are written as the records of an instance file.

mod blocking;
mod chance;
mod family;
mod keys;
mod limits;
mod made;
mod matchings;
mod plain;
mod readers;
mod rows;
mod solving;
