//! Decodes the rows that queries return: the rolls, lists, placements and the office's row.

pub mod cells;
pub mod decode;
pub(crate) mod entries;
pub(crate) mod office;
pub(crate) mod placements;
pub(crate) mod row_numbers;
pub(crate) mod sorted_rolls;
