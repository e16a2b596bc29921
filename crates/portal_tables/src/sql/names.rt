//! Tests whether a schema is empty, and whether any portal table's name is taken.

ghost use Rattle.std.specs.Prelude.{◌≡◌, ◌↔◌};
ghost use Rattle.portal_tables.specs.inner.Base.{IsTrue, list_any};
ghost use Rattle.portal_tables.specs.Tables.{no_schema};
ghost use Rattle.portal_tables.specs.Making.{has_names, stands_for_table};
ghost use Rattle.portal_tables.specs.inner.Named.{has_first_name, has_second_name, is_name};
ghost use Rattle.portal_tables.specs.inner.Named.{is_named_table, is_named_view};

use sqlite_schema::names::same_name;
use sqlite_schema::schema::{Schema, Table, View};

/// A set of table names.
#[derive(Clone, Copy, Drop)]
pub enum Names {
    /// The names of all the portal's tables.
    All,
    /// The names of the second round's tables.
    OfSecond,
}

/// Returns whether this is the name of one of the first round's six tables.
fn is_first_name(name: &[u8]) -> bool
    ensures { result ≡ has_first_name name.now }
{
    same_name(name, b"portal".as_slice())
        || same_name(name, b"lecturer".as_slice())
        || same_name(name, b"project".as_slice())
        || same_name(name, b"student".as_slice())
        || same_name(name, b"choice".as_slice())
        || same_name(name, b"ranking".as_slice())
}

/// Returns whether this is the name of one of the second round's five tables.
fn is_second_name(name: &[u8]) -> bool
    ensures { result ≡ has_second_name name.now }
{
    same_name(name, b"second".as_slice())
        || same_name(name, b"choice2".as_slice())
        || same_name(name, b"ranked2".as_slice())
        || same_name(name, b"ranking2".as_slice())
        || same_name(name, b"assigned2".as_slice())
}

impl Names {
    /// Returns whether this is one of the names, ignoring case.
    fn has(self, name: &[u8]) -> bool
        ensures { result ≡ is_name self name.now }
    {
        match self {
            Names::All => is_first_name(name) || is_second_name(name),
            Names::OfSecond => is_second_name(name),
        }
    }
}

/// Returns whether this entry of a schema is a view, or a table that the connection cannot read.
fn is_view(view: &View) -> bool
    ensures { result ≡ stands_for_table view.now.name view.now.foreign }
{
    match &view.foreign {
        Some(table) => table.as_slice() == view.name.as_slice(),
        None => true,
    }
}

/// Returns whether a table of the schema has one of the portal's names.
fn has_tables(names: Names, tables: &[Table]) -> bool
    ensures { result ≡ list_any (is_named_table names) tables.now }
{
    tables.iter().any(|table| names.has(table.name.as_slice()))
}

/// Returns whether a view, or a table that the connection cannot read, has one of the portal's
/// names.
fn has_views(names: Names, views: &[View]) -> bool
    ensures { result ≡ list_any (is_named_view names) views.now }
{
    views
        .iter()
        .any(|view| names.has(view.name.as_slice()) && is_view(view))
}

/// Returns whether a table or a view of the schema has one of the portal's names, ignoring case.
pub fn is_there(schema: &Schema, names: Names) -> bool
    ensures { result ≡ has_names names schema.now }
{
    has_tables(names, schema.tables.as_slice()) || has_views(names, schema.views.as_slice())
}

/// Returns whether the schema has no table, no index and no view.
pub fn is_empty(schema: &Schema) -> bool
    ensures { IsTrue result ↔ (schema.now ≡ no_schema) }
{
    schema.tables.is_empty() && schema.indexes.is_empty() && schema.views.is_empty()
}
