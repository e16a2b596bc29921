//! Inserts rows into a table: eight per statement, the rest singly. Also inserts the one row of
//! the table `portal`, and the one row of the table `second`.

ghost use Rattle.std.specs.Prelude.{◌≡◌, ◌<◌, ◌≤◌, ◌++◌, ◌∷◌};
ghost use Rattle.portal_tables.specs.inner.Base.{ℕ, [], pos, map, OnOk, flat_map, Row, bound};
ghost use Rattle.portal_tables.specs.Running.{Does, Ran, Made, GoesOn};
ghost use Rattle.portal_tables.specs.Tables.{portal_tree, second_tree, version};
ghost use Rattle.portal_tables.specs.inner.RowChanges.{portal_cells, second_cells};
ghost use Rattle.portal_tables.specs.inner.RowChanges.{Adds, AddsBy};

mod lists;
mod rolls;

use crate::reading::office::VERSION;
use crate::sql::run::write;
pub use lists::NewPlace;
pub use rolls::{Lecturers, Projects, Students};
use sqlite::types::{ToSql, ValueRef};
use sqlite::{Alter, Error, Transaction};
use std::alloc::{AllocError, Global};

/// Inserts the row of `portal`: the current schema version, phase 0 and the office's code.
pub(crate) fn add_portal<S: Alter>(tx: &mut Transaction<'_, S>, office: &[u8]) -> Result<(), Error>
    ensures { Does S.Store (Made
        (Adds portal_tree
        (portal_cells (pos version) (pos 0) office.now ∷ []))) result tx.old tx.new }
{
    write(
        tx,
        "INSERT INTO portal (version, phase, office) VALUES (?1, 0, ?2)",
        &[VERSION.to_sql(), ValueRef::Text(office)],
    )
}

/// Inserts the row of `second` with phase 0, which means that there is no second round.
pub(crate) fn add_second<S: Alter>(tx: &mut Transaction<'_, S>) -> Result<(), Error>
    ensures { Does S.Store (Made
        (Adds second_tree (second_cells (pos 0) ∷ []))) result tx.old tx.new }
{
    write(tx, "INSERT INTO second (phase) VALUES (0)", &[])
}

/// A table that takes rows of type `R`.
pub trait Target<R> {
    // the table's tree number
    ghost tree: { Self → ℕ };

    // the cells of a row after its rowid, and the parameters that insert the row
    ghost cells: { R → Row };

    ghost values: { R → Row };

    /// Returns the statement that inserts one row. Its parameters are the row's values.
    fn text<S: Alter>(&self) -> &'static str
        ensures { AddsBy S.Store result.now 1 (tree self.now) values cells };

    /// Returns the statement that inserts eight rows. Its parameters are their values in order.
    fn text_of_eight<S: Alter>(&self) -> &'static str
        ensures { AddsBy S.Store result.now 8 (tree self.now) values cells };

    /// Appends the row's values to `all`. Fails only if memory runs out.
    fn put_values<'v>(row: &'v R, all: &mut Vec<ValueRef<'v>>) -> Result<(), AllocError>
        ensures { OnOk result (bound all.new.items ≡ bound all.old.items ++ values row.now) };
}

/// Returns how many of the remaining rows the next statement inserts, and the statement.
fn next_text<S: Alter, R, T: Target<R>>(table: &T, left: usize) -> (usize, &'static str)
    ensures adds { AddsBy S.Store result.1.now result.0 (T.tree table.now) T.values T.cells }
    ensures some { 0 < result.0 }
    ensures fits { 0 < left → result.0 ≤ left }
{
    if left < 8 {
        (1, table.text::<S>())
    } else {
        (8, table.text_of_eight::<S>())
    }
}

/// Executes an INSERT statement with the values of these rows as parameters.
fn write_rows<S: Alter, R, T: Target<R>>(
    alloc: Global,
    tx: &mut Transaction<'_, S>,
    text: &str,
    rows: &[R],
) -> Result<(), Error>
    ensures { Does S.Store (Ran text.now (flat_map T.values rows.now)) result tx.old tx.new }
{
    let mut values = Vec::new(alloc);
    for row in rows {
        T::put_values(row, &mut values)?;
    }
    write(tx, text, &values)
}

/// Inserts the rows into the table in order, eight in a statement while eight remain. Stops at the
/// first error and returns it. The error may be a memory shortage.
pub fn add_all<S: Alter, R, T: Target<R>>(
    alloc: Global,
    tx: &mut Transaction<'_, S>,
    table: &T,
    rows: &[R],
) -> Result<(), Error>
    ensures { Does S.Store (GoesOn
        (Adds (T.tree table.now) (map T.cells rows.now))) result tx.old tx.new }
{
    let mut rest = rows;
    // the proof names the loop by its label
    'runs: while !rest.is_empty() {
        let (count, text) = next_text::<S, R, T>(table, rest.len());
        let (run, after) = rest.split_at(count);
        write_rows::<S, R, T>(alloc, tx, text, run)?;
        rest = after;
    }
    Ok(())
}
