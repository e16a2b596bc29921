//! Adds rows to a roll in the database, in one transaction.

ghost use Rattle.std.specs.Prelude.{◌≡◌, false};
ghost use Rattle.sqlite.specs.Held.{state};
ghost use Rattle.portal_store.specs.inner.Adding.{with_rows_added};
ghost use Rattle.portal_store.specs.inner.Ending.{CommitsChange};
ghost use Rattle.portal_store.specs.inner.Keeping.{IsTransitionIn};

use portal_rules::{LecturerRow, ProjectRow, Round, StudentRow};
use portal_tables::sql::insert::{Lecturers, Projects, Students, add_all};
use portal_tables::{TableChange, TableFault, commit, outside_transaction};
use sqlite::{Alter, Connection, Error, Transaction};
use std::alloc::Global;

/// New rows of one of the rolls.
#[derive(Clone, Copy, Drop)]
pub(crate) enum NewRows<'a> {
    Lecturers(&'a [LecturerRow]),
    Projects(&'a [ProjectRow]),
    Students(&'a [StudentRow]),
}

/// The step that adds rows to their roll; in the second round it changes nothing.
struct AddRows<'a> {
    round: Round,
    rows: NewRows<'a>,
}

impl TableChange for AddRows<'_> {
    ghost makes = { λ s. IsTransitionIn s.round (with_rows_added s.rows) };

    fn take<S: Alter>(self, alloc: Global, tx: &mut Transaction<'_, S>) -> Result<(), Error> {
        let AddRows { round, rows } = self;
        match round {
            Round::First => match rows {
                NewRows::Lecturers(rows) => add_all(alloc, tx, &Lecturers, rows),
                NewRows::Projects(rows) => add_all(alloc, tx, &Projects, rows),
                NewRows::Students(rows) => add_all(alloc, tx, &Students, rows),
            },
            Round::Second => Ok(()),
        }
    }
}

/// Adds rows to their roll in one transaction; in the second round it changes nothing.
pub(crate) fn add_rows<S: Alter>(
    alloc: Global,
    conn: &mut Connection<S>,
    round: Round,
    rows: NewRows<'_>,
) -> Result<(), TableFault>
    requires idle { conn.old.in_transaction ≡ false }
    ensures { CommitsChange (IsTransitionIn round (with_rows_added rows.entry)) result
        (state S.Store conn.old) (state S.Store conn.new) }
{
    outside_transaction(conn);
    commit(alloc, conn, AddRows { round, rows })
}
