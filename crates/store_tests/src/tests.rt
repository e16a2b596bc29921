//! Tests the tables, and a desk over a database in memory or on a disk that fails.

mod crowds;
mod damages;
mod failed_reads;
mod halls;
mod keeping;
mod long;
mod second_damages;
mod second_lists;
mod second_stops;
mod second_tables;
mod steps;
mod stops;
mod streams;
mod tables;
mod trial;
mod upgrades;
mod whole;
mod years;
