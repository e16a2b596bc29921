//! Makes a store of new tables, or of tables that are checked, and upgraded if of version 1.

mod checks;
mod create;
mod open;
mod upgrade;
