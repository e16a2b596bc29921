//! The portal's tables in a database of the crate `sqlite`: creates them, executes statements on
//! them, runs queries, and decodes the rows that queries show. It works on rows, without worlds.
#![tactic(auto)]

mod fault;
pub mod reading;
pub mod sql;
mod writing;

pub use fault::TableFault;
pub use reading::entries::{entries_in, entry_in, has_list_in, list_in};
pub use reading::office::{FIRST_VERSION, Office, VERSION, is_number, office_in, second_in};
pub use reading::placements::{
    first_pairs_in, pairs_in, result_in, second_placement_in, takes_part,
};
pub use reading::row_numbers::row_numbers_differ;
pub use reading::sorted_rolls::{Rolls, is_named, parts_of, read_in_order, roll_in, rolls_in};
pub use sql::step::{TableChange, commit, outside_transaction};
pub use sql::update::{rank_second, set_phase};
pub use writing::make::{create_portal, upgrade_tables};
pub use writing::put::{clear_list, put_list};
pub use writing::results::{Assignment, assign_all, put_placements};
pub use writing::schema::PortalSchema;
