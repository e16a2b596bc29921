//! Makes a student's view by queries for list and placement.

ghost use Rattle.std.specs.Prelude.{◌≡◌};
ghost use Rattle.portal_views.specs.inner.Base.{IsDatabase};
ghost use Rattle.portal_views.specs.inner.Callers.{IsReadable, student_shown};
ghost use Rattle.portal_tables.specs.Reads.{MayRead, GivesOrFails, Blames};

use crate::lines::person_at;
use portal_rules::{Listing, Phase, Round, StudentView};
use portal_tables::reading::cells::key_at;
use portal_tables::sql::list_table::Lists;
use portal_tables::{TableFault, list_in, result_in};
use spa_rows::Key;
use sqlite::{Alter, Connection, Row};
use std::alloc::Global;
use std::rc::Rc;

/// Makes by queries the view of the student in this row, with the given catalogue. Fails with
/// `Damaged` if a key or the name is invalid, the list has a gap or the second round gives two
/// placements. Fails with `Store` if the store reports an error, and with `Memory` if memory runs
/// out.
pub fn student_view<S: Alter>(
    alloc: Global,
    conn: &mut Connection<S>,
    round: Round,
    phase: Phase,
    row: &Row,
    catalogue: Rc<Vec<Listing>>,
) -> Result<StudentView, TableFault>
    ensures { MayRead round S.Store IsDatabase
        (GivesOrFails (λ db v. v ≡ student_shown round db.trees phase row.now catalogue.value.items)
        (λ db fault. Blames fault (IsReadable round db.trees row.now))) result conn.old conn.new }
{
    let student = key_at(alloc, row, 0)?;
    let choices = list_in(alloc, conn, Lists::Choices(round), &student)?;
    let place = result_in(alloc, conn, round, phase, row)?;
    Ok(StudentView {
        round,
        phase,
        me: person_at(alloc, row)?,
        catalogue,
        choices,
        result: place,
    })
}
