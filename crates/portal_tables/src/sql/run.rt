//! Executes SQL texts: statements in a transaction, and the queries of the module `select`.

ghost use Rattle.portal_tables.specs.inner.Base.{bound};
ghost use Rattle.portal_tables.specs.Running.{Does, Ran};
ghost use Rattle.portal_tables.specs.inner.Decoding.{ReadsEach, FindsRow};

use crate::fault::TableFault;
use crate::reading::decode::FromCells;
use sqlite::types::ValueRef;
use sqlite::{Alter, Connection, Error, Transaction};
use std::alloc::Global;

/// Executes the SQL text of a statement in the transaction.
pub(crate) fn write<S: Alter>(
    tx: &mut Transaction<'_, S>,
    sql: &str,
    params: &[ValueRef<'_>],
) -> Result<(), Error>
    ensures { Does S.Store (Ran sql.now (bound params.now)) result tx.old tx.new }
{
    tx.execute(sql, params)?;
    Ok(())
}

/// Runs the SQL text of a query and decodes each row as it is read. Stops at the first fault: an
/// error of the store, or a row that decoding refuses.
pub(crate) fn query_each<S: Alter, T: FromCells>(
    alloc: Global,
    conn: &mut Connection<S>,
    sql: &str,
    params: &[ValueRef<'_>],
) -> Result<Vec<T>, TableFault>
    ensures { ReadsEach S.Store T.shown T.is_fine sql.now (bound params.now)
        result conn.old conn.new }
{
    let mut rows = conn.query(sql, params)?;
    let mut all = Vec::new(alloc);
    // the proof names the loop by its label
    'rows: for _ in 0..u64::MAX {
        rows.advance()?;
        let Some(row) = rows.get() else {
            return Ok(all);
        };
        all.push(T::from_cells(alloc, row)?)?;
    }
    // no vector can hold this many rows
    Err(TableFault::Memory)
}

/// Returns whether the SQL text of a query finds any row. Reads at most one row.
pub(crate) fn query_any<S: Alter>(
    conn: &mut Connection<S>,
    sql: &str,
    params: &[ValueRef<'_>],
) -> Result<bool, Error>
    ensures { FindsRow S.Store sql.now (bound params.now) result conn.old conn.new }
{
    let mut rows = conn.query(sql, params)?;
    rows.advance()?;
    Ok(rows.get().is_some())
}
