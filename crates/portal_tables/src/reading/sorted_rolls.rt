//! Reads rows sorted by key, such as the rolls, finds a key among them, and decodes the rolls.

ghost use Rattle.std.specs.Prelude.{◌≡◌};
ghost use Rattle.portal_tables.specs.inner.Base.{Err, IfOk, List, Cells, map};
ghost use Rattle.portal_tables.specs.inner.Base.{AllByRecursion, IsDatabase, IsLecturer, IsProject};
ghost use Rattle.portal_tables.specs.inner.Base.{IsStudent, Rise, First, has, nat_cmp};
ghost use Rattle.portal_tables.specs.inner.Base.{slice_cmp};
ghost use Rattle.portal_tables.specs.inner.Queries.{QueryShows, round_asked};
ghost use Rattle.portal_tables.specs.Reads.{Always, GivesOrFails, Blames, Reads};
ghost use Rattle.portal_tables.specs.inner.Rolls.{roll_rows, RollRises, AreRolls, RollsRise};
ghost use Rattle.portal_tables.specs.inner.Shown.{first_cell, shown_lecturer, shown_project};
ghost use Rattle.portal_tables.specs.inner.Shown.{shown_student};

use crate::fault::TableFault;
use crate::reading::cells::bytes_at;
use crate::reading::decode::{decode_rows, do_rise};
use crate::sql::select::{Query, RollTable, read_rows};
use portal_rules::{LecturerRow, ProjectRow, StudentRow};
use sqlite::{Alter, Connection, Row};
use std::alloc::Global;
use std::cmp::Ordering;

/// Reads the rows of any query, which must be in key order. Fails with `Damaged` if the keys in
/// column 0 are not strictly ascending. Fails with `Store` if the store reports an error, and with
/// `Memory` if memory runs out.
pub fn read_in_order<S: Alter>(
    alloc: Global,
    conn: &mut Connection<S>,
    query: Query<'_>,
) -> Result<Vec<Row>, TableFault>
    ensures reads { Reads (round_asked query.entry) S.Store Always
        (GivesOrFails (λ db rows. QueryShows query.entry db.trees rows.items)
        (λ db fault. Blames fault ((rows : List Cells) → QueryShows query.entry db.trees rows
        → Rise (map first_cell rows)))) result conn.old conn.new }
    ensures rise { IfOk result (λ rows. Rise (map first_cell rows.items)) }
{
    let rows = read_rows(alloc, conn, query)?;
    if !do_rise(&rows) {
        return Err(TableFault::Damaged);
    }
    Ok(rows)
}

/// Returns whether a row begins with the key, in rows sorted by strictly ascending key.
pub fn is_named(rows: &[Row], key: &[u8]) -> bool
    requires { Rise (map first_cell rows.now) }
    ensures { result ≡ has (map first_cell rows.now) key.now }
{
    let found = rows.binary_search_by(
        |row: &Row| -> Ordering
            ensures { result ≡ slice_cmp nat_cmp (first_cell row.now) key.entry.now }
        { bytes_at(row, 0).cmp(key) },
    );
    found.is_ok()
}

/// Reads a roll, sorted by key. Fails with `Damaged` if the keys are not strictly ascending, and
/// otherwise like `read_in_order`.
pub fn roll_in<S: Alter>(
    alloc: Global,
    conn: &mut Connection<S>,
    roll: RollTable,
) -> Result<Vec<Row>, TableFault>
    ensures { Reads First S.Store Always
        (GivesOrFails (λ db v. v.items ≡ roll_rows roll db.trees)
        (λ db fault. Blames fault (IsDatabase db × RollRises roll db.trees)))
        result conn.old conn.new }
{
    read_in_order(alloc, conn, Query::Whole(roll))
}

/// The rows of the rolls, as queries return them, sorted by key.
#[derive(Drop)]
pub struct Rolls {
    /// Key, name, code, capacity, and 1 if there is a ranking in the first round, otherwise 0.
    pub lecturers: Vec<Row>,
    /// Key, lecturer, title and capacity.
    pub projects: Vec<Row>,
    /// Key, name, code and assigned project.
    pub students: Vec<Row>,
}

/// Reads the three rolls, each sorted by key. Stops at the first fault and returns it.
pub fn rolls_in<S: Alter>(alloc: Global, conn: &mut Connection<S>) -> Result<Rolls, TableFault>
    ensures { Reads First S.Store Always
        (GivesOrFails (λ db. AreRolls db.trees)
        (λ db fault. Blames fault (IsDatabase db × RollsRise db.trees)))
        result conn.old conn.new }
{
    let lecturers = roll_in(alloc, conn, RollTable::Lecturers)?;
    let projects = roll_in(alloc, conn, RollTable::Projects)?;
    let students = roll_in(alloc, conn, RollTable::Students)?;
    Ok(Rolls {
        lecturers,
        projects,
        students,
    })
}

/// The decoded rows of the rolls, in the order of the rows.
#[derive(Drop)]
pub struct Parts {
    pub lecturers: Vec<LecturerRow>,
    pub projects: Vec<ProjectRow>,
    pub students: Vec<StudentRow>,
}

/// Decodes the rows of the three rolls. Fails with `Damaged` if a cell holds an invalid value, and
/// with `Memory` if memory runs out.
pub fn parts_of(alloc: Global, rolls: &Rolls) -> Result<Parts, TableFault>
    ensures lecturers { IfOk result (λ p. p.lecturers.items
        ≡ map shown_lecturer rolls.now.lecturers.items) }
    ensures projects { IfOk result (λ p. p.projects.items
        ≡ map shown_project rolls.now.projects.items) }
    ensures students { IfOk result (λ p. p.students.items
        ≡ map shown_student rolls.now.students.items) }
    ensures damaged { result ≡ Err TableFault.Damaged
        → AllByRecursion (λ c. IsLecturer (shown_lecturer c)) rolls.now.lecturers.items
        → AllByRecursion (λ c. IsProject (shown_project c)) rolls.now.projects.items
        → AllByRecursion (λ c. IsStudent (shown_student c)) rolls.now.students.items → ⊥ }
    ensures store { result ≡ Err TableFault.Store → ⊥ }
{
    Ok(Parts {
        lecturers: decode_rows(alloc, &rolls.lecturers)?,
        projects: decode_rows(alloc, &rolls.projects)?,
        students: decode_rows(alloc, &rolls.students)?,
    })
}
