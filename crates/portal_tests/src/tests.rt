//! Tests both rounds over the keeper in lists, and rolls, rows, instance files, texts and names.

mod instances;
mod limits;
mod portal;
mod readers;
mod rounds;
mod rows;
mod texts;
mod words;
