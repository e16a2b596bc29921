//! Compares a schema with the portal's own, except for the terms of CHECK and DEFAULT.

ghost use Rattle.std.specs.Prelude.{◌≡◌, ◌↔◌};
ghost use Rattle.portal_tables.specs.inner.Base.{IsTrue, false, OnOk};
ghost use Rattle.portal_tables.specs.inner.Base.{AllZip};
ghost use Rattle.portal_tables.specs.Tables.{no_schema, portal_schema};
ghost use Rattle.portal_tables.specs.Tables.{HasFirstSchema, IsCurrentSchema, IsFirstSchema};
ghost use Rattle.portal_tables.specs.inner.Comparing.{HasParts, SameDefaults, SameParts, SameRules};

use crate::writing::make::make_tables;
use sqlite::{Alter, Connection, Error, MemStore};
use sqlite_items::Items;
use sqlite_schema::code::lend_value;
use sqlite_schema::schema::{Column, Index, Reference, Schema, Table};
use sqlite_value::keys::Order;
use sqlite_value::order::is_same;
use sqlite_value::value::Bytes;
use std::alloc::Global;
use std::marker::Model;

/// A part of a schema that can be compared in full.
trait Same {
    /// Returns whether the two parts of a schema are the same.
    fn is_the_same(&self, other: &Self) -> bool
        ensures { IsTrue result ↔ (self.now ≡ other.now) };
}

/// Returns whether two lists of parts of a schema are the same.
fn are_same<T: Same>(a: &[T], b: &[T]) -> bool
    ensures { IsTrue result ↔ (a.now ≡ b.now) }
{
    if a.len() != b.len() {
        return false;
    }
    for (i, x) in a.iter().enumerate() {
        if !x.is_the_same(&b[i]) {
            return false;
        }
    }
    true
}

impl Same for Bytes {
    fn is_the_same(&self, other: &Bytes) -> bool {
        self.as_slice() == other.as_slice()
    }
}

impl Same for Items<usize> {
    fn is_the_same(&self, other: &Items<usize>) -> bool {
        self.as_slice() == other.as_slice()
    }
}

impl Same for Order {
    fn is_the_same(&self, other: &Order) -> bool {
        self == other
    }
}

impl Same for Column {
    fn is_the_same(&self, other: &Column) -> bool {
        self.name.as_slice() == other.name.as_slice()
            && self.kind == other.kind
            && self.is_strict == other.is_strict
            && self.not_null == other.not_null
            && is_same(lend_value(&self.default), lend_value(&other.default))
            && self.collation == other.collation
    }
}

impl Same for Reference {
    fn is_the_same(&self, other: &Reference) -> bool {
        self.columns.as_slice() == other.columns.as_slice()
            && self.parent.as_slice() == other.parent.as_slice()
            && are_same(
                self.parent_columns.as_slice(),
                other.parent_columns.as_slice(),
            )
            && self.on_delete == other.on_delete
            && self.on_update == other.on_update
            && self.is_deferred == other.is_deferred
    }
}

impl Same for Index {
    fn is_the_same(&self, other: &Index) -> bool {
        self.name.as_slice() == other.name.as_slice()
            && self.tree == other.tree
            && self.table == other.table
            && self.columns.as_slice() == other.columns.as_slice()
            && self.order == other.order
            && self.is_unique == other.is_unique
    }
}

/// Returns whether two tables have the same primary key, UNIQUE constraints and foreign keys.
fn has_same_rules(a: &Table, b: &Table) -> bool
    ensures { IsTrue result ↔ SameRules a.now b.now }
{
    a.primary.as_slice() == b.primary.as_slice()
        && are_same(a.uniques.as_slice(), b.uniques.as_slice())
        && are_same(a.orders.as_slice(), b.orders.as_slice())
        && are_same(a.references.as_slice(), b.references.as_slice())
}

/// Returns whether two tables have the same computed defaults, except for their terms.
fn has_same_defaults(a: &Table, b: &Table) -> bool
    ensures { IsTrue result ↔ SameDefaults a.now b.now }
{
    a.computed.as_slice() == b.computed.as_slice()
        && a.stamps.places.as_slice() == b.stamps.places.as_slice()
        && are_same(a.stamps.formats.as_slice(), b.stamps.formats.as_slice())
}

/// Returns whether two tables are the same, except for the terms of CHECK and DEFAULT.
fn is_same_table(a: &Table, b: &Table) -> bool
    ensures { IsTrue result ↔ SameParts a.now b.now }
{
    a.name.as_slice() == b.name.as_slice()
        && a.tree == b.tree
        && are_same(a.columns.as_slice(), b.columns.as_slice())
        && a.key == b.key
        && a.is_counted == b.is_counted
        && has_same_rules(a, b)
        && has_same_defaults(a, b)
}

/// Returns whether two lists of tables are the same, except for the terms of CHECK and DEFAULT.
fn are_same_tables(a: &[Table], b: &[Table]) -> bool
    ensures { IsTrue result ↔ AllZip SameParts a.now b.now }
{
    if a.len() != b.len() {
        return false;
    }
    for (i, x) in a.iter().enumerate() {
        if !is_same_table(x, &b[i]) {
            return false;
        }
    }
    true
}

/// Returns whether the schema has these tables and indexes and no view. The terms of CHECK and
/// DEFAULT are not compared.
fn is_same_schema(schema: &Schema, tables: &[Table], indexes: &[Index]) -> bool
    ensures { IsTrue result ↔ HasParts schema.now tables.now indexes.now }
{
    are_same_tables(schema.tables.as_slice(), tables)
        && are_same(schema.indexes.as_slice(), indexes)
        && schema.views.is_empty()
}

/// Creates the portal's tables in an empty in-memory database, to compare schemas with it.
fn make_scratch(conn: &mut Connection<MemStore>) -> Result<(), Error>
    requires idle { conn.old.in_transaction ≡ false }
    requires empty { conn.old.schema ≡ no_schema }
    ensures { OnOk result (conn.new.schema ≡ portal_schema) }
{
    let mut tx = conn.transaction();
    make_tables(&mut tx)?;
    tx.commit()?;
    Ok(())
}

/// How many tables version 1 has: the first of the current schema.
const FIRST_TABLES: usize = 6;

/// How many indexes the tables of version 1 have.
const FIRST_INDEXES: usize = 9;

/// The portal's tables without rows, in an in-memory database, to compare schemas with. The terms
/// of CHECK and DEFAULT are not compared: other CHECK constraints may refuse a row, but do not
/// change what a successful statement does.
#[derive(Drop)]
pub struct PortalSchema {
    conn: Connection<MemStore>,
}

impl Model for PortalSchema {
    ghost use Rattle.std.specs.Prelude.{◌≡◌};
    ghost use Rattle.portal_tables.specs.Tables.{portal_schema};

    ghost Value = { Unit {0} };

    ghost view = { λ _. tt };

    ghost invariant = { λ p. p.conn.schema ≡ portal_schema };
}

impl PortalSchema {
    /// Creates the tables in memory. Returns any error of `sqlite`.
    pub fn new(alloc: Global) -> Result<PortalSchema, Error> {
        let mut conn = Connection::open_in_memory(alloc)?;
        make_scratch(&mut conn)?;
        Ok(PortalSchema { conn })
    }

    /// Returns whether a connection's schema is the portal's, except for the terms of CHECK and
    /// DEFAULT. Does not read the database.
    pub fn fits<S: Alter>(&self, conn: &Connection<S>) -> bool
        ensures current { IsTrue result ↔ IsCurrentSchema conn.now.schema }
        ensures own { IsTrue result → HasFirstSchema conn.now.schema }
    {
        let all = self.conn.schema();
        is_same_schema(conn.schema(), all.tables.as_slice(), all.indexes.as_slice())
    }

    /// Returns whether a connection's schema is that of version 1, compared in the same way.
    pub fn fits_first<S: Alter>(&self, conn: &Connection<S>) -> bool
        ensures first { IsTrue result ↔ IsFirstSchema conn.now.schema }
        ensures own { IsTrue result → HasFirstSchema conn.now.schema }
    {
        let all = self.conn.schema();
        is_same_schema(
            conn.schema(),
            &all.tables.as_slice()[..FIRST_TABLES],
            &all.indexes.as_slice()[..FIRST_INDEXES],
        )
    }
}
