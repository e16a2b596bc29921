//! Reads a table's rowids, and tests whether they are distinct, as updates and deletions require.

ghost use Rattle.std.specs.Prelude.{◌≡◌};
ghost use Rattle.portal_tables.specs.inner.Base.{true, IfSome, IsTrue, None, Int, column};
ghost use Rattle.portal_tables.specs.Rows.{RowNumbersDiffer};
ghost use Rattle.portal_tables.specs.inner.Queries.{table_tree, table_round};
ghost use Rattle.portal_tables.specs.Reads.{Always, IsOtherError, ReadsOr, Gives};
ghost use Rattle.portal_tables.specs.inner.Rising.{rises};

use crate::sql::select::{Query, Table, read};
use sqlite::{Alter, Connection, Error, Row};

/// Returns the rowid in column 0 of the row, or `None` if the cell holds no integer.
fn number_of(row: &Row) -> Option<i64>
    ensures { IfSome result (λ n. column row.now 0 ≡ Int n) }
{
    row.get::<i64>(0).ok()
}

/// Returns whether the rowids in column 0 of the rows are strictly ascending.
fn numbers_rise(rows: &[Row]) -> bool
    ensures { IsTrue result → rises None rows.now ≡ true }
{
    let mut last: Option<i64> = None;
    for row in rows {
        let Some(n) = number_of(row) else {
            return false;
        };
        if let Some(before) = last {
            if before >= n {
                return false;
            }
        }
        last = Some(n);
    }
    true
}

/// Returns whether the rowids of a table are distinct.
pub fn row_numbers_differ<S: Alter>(conn: &mut Connection<S>, table: Table) -> Result<bool, Error>
    ensures { ReadsOr IsOtherError (table_round table) S.Store Always
        (Gives (λ db apart. IsTrue apart → RowNumbersDiffer (db.trees (table_tree table))))
        result conn.old conn.new }
{
    let rows = read(conn, Query::Numbers(table))?;
    Ok(numbers_rise(&rows))
}
