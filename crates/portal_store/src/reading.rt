//! Reads the world from tables, and keeps what was read in caches.

pub(crate) mod entries;
pub(crate) mod load;
pub mod queries;
pub(crate) mod round;
pub(crate) mod view_cache;
