//! Defines the INSERT statements for the tables of lists and rankings.

ghost use Rattle.portal_tables.specs.Tables.{tree_of};
ghost use Rattle.portal_tables.specs.inner.RowChanges.{AddsBy, place_new};

use super::Target;
use crate::sql::list_table::Lists;
use sqlite::Alter;
use sqlite::types::{ToSql, ValueRef};
use std::alloc::AllocError;

/// A row of a table of lists: one item of an owner's list, at a place counted from 1.
#[derive(Clone, Copy)]
pub struct NewPlace<'a> {
    pub owner: &'a [u8],
    pub place: u32,
    pub item: &'a [u8],
}

impl<'a> Target<NewPlace<'a>> for Lists {
    ghost tree = { tree_of };

    ghost cells = { place_new };

    ghost values = { place_new };

    fn text<S: Alter>(&self) -> &'static str
        ensures { AddsBy S.Store result.now 1 (tree_of self.now) place_new place_new }
    {
        self.add_text()
    }

    fn text_of_eight<S: Alter>(&self) -> &'static str
        ensures { AddsBy S.Store result.now 8 (tree_of self.now) place_new place_new }
    {
        self.add_eight_text()
    }

    fn put_values<'v>(
        row: &'v NewPlace<'a>,
        all: &mut Vec<ValueRef<'v>>,
    ) -> Result<(), AllocError> {
        all.extend_from_slice(&[
            ValueRef::Text(row.owner),
            row.place.to_sql(),
            ValueRef::Text(row.item),
        ])
    }
}
