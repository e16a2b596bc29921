//! Reads key, name and placement of the students who list a project, whatever the phase.

ghost use Rattle.std.specs.Prelude.{◌≡◌, ◌∷◌};
ghost use Rattle.portal_views.specs.inner.Base.{[], Err, IfOk, Some, AllByRecursion, map, length};
ghost use Rattle.portal_views.specs.inner.Base.{Row as Cells, column, bytes, IsDatabase};
ghost use Rattle.portal_views.specs.inner.Base.{Contradicts};
ghost use Rattle.portal_tables.specs.inner.Placements.{HasPlacement};
ghost use Rattle.portal_tables.specs.Reads.{MayRead, GivesOrFails, Blames, Reads};
ghost use Rattle.portal_tables.specs.inner.Shown.{first_cell};
ghost use Rattle.portal_views.specs.inner.Lines.{HasTables, HasStudents, IsNamed, IsStudentKey};
ghost use Rattle.portal_views.specs.inner.Lines.{IsNamedWithPlacement, placement_line, in_round, applicant_at};
ghost use Rattle.portal_views.specs.inner.Lines.{applicant_lines};

use portal_rules::{Person, Round};
use portal_tables::reading::cells::{assigned_at, bytes_at, key_at, name_at};
use portal_tables::reading::decode::{FromCells, at_most_one};
use portal_tables::sql::select::{Query, read_each};
use portal_tables::{TableFault, read_in_order, second_placement_in};
use spa_rows::Key;
use sqlite::{Alter, Connection, Row};
use std::alloc::{AllocError, Global};

/// Decodes the person in a row that begins with key and name. Fails with `Damaged` if one of them
/// is invalid, and with `Memory` if memory runs out.
pub(crate) fn person_at(alloc: Global, row: &Row) -> Result<Person, TableFault>
    ensures ok { IfOk result (λ p. p
        ≡ record { key = first_cell row.now; name = bytes (column row.now 1) }) }
    ensures damaged { result ≡ Err TableFault.Damaged → IsNamed row.now → ⊥ }
    ensures store { result ≡ Err TableFault.Store → ⊥ }
{
    Ok(Person {
        key: key_at(alloc, row, 0)?,
        name: name_at(alloc, row, 1)?,
    })
}

/// What a lecturer may see of a student.
#[derive(Drop)]
pub struct ApplicantLine {
    /// Key and name.
    pub person: Person,
    /// The project at which the student is placed, if there is one.
    pub placed: Option<Key>,
}

impl FromCells for ApplicantLine {
    ghost shown = { placement_line };

    ghost is_fine = { IsNamedWithPlacement };

    fn from_cells(alloc: Global, row: &Row) -> Result<ApplicantLine, TableFault> {
        Ok(ApplicantLine {
            person: person_at(alloc, row)?,
            placed: assigned_at(alloc, row, 2)?,
        })
    }
}

/// Returns the only line that was read of a student. Fails with `Damaged` unless there is exactly
/// one.
fn only_line(lines: Vec<ApplicantLine>) -> Result<ApplicantLine, TableFault>
    ensures ok { IfOk result (λ l. lines.items ≡ l ∷ []) }
    ensures damaged { result ≡ Err TableFault.Damaged → length lines.items ≡ 1 → ⊥ }
    ensures store { result ≡ Err TableFault.Store → ⊥ }
{
    match at_most_one(lines)? {
        Some(line) => Ok(line),
        None => Err(TableFault::Damaged),
    }
}

/// Replaces the assigned project in a student's line by the placement in the round.
fn line_of_round<S: Alter>(
    alloc: Global,
    conn: &mut Connection<S>,
    round: Round,
    line: ApplicantLine,
) -> Result<ApplicantLine, TableFault>
    ensures { MayRead round S.Store IsDatabase
        (GivesOrFails (λ db l. l ≡ in_round round db.trees line)
        (λ db fault. (c : Cells) → first_cell c ≡ line.person.key
        → Blames fault (HasPlacement round db.trees c))) result conn.old conn.new }
{
    match round {
        Round::First => Ok(line),
        Round::Second => {
            let placed = second_placement_in(alloc, conn, line.person.key.as_bytes())?;
            Ok(ApplicantLine {
                person: line.person,
                placed,
            })
        }
    }
}

/// Reads key, name and placement of the student with this key, as a line.
fn line_in<S: Alter>(
    alloc: Global,
    conn: &mut Connection<S>,
    round: Round,
    key: &[u8],
) -> Result<ApplicantLine, TableFault>
    ensures { Reads round S.Store HasTables
        (GivesOrFails (λ db l. Some l ≡ applicant_at round db.trees key.now)
        (Contradicts (λ db. HasStudents round db × IsStudentKey db.trees key.now)))
        result conn.old conn.new }
{
    let lines = read_each(alloc, conn, Query::StudentTold(key))?;
    let line = only_line(lines)?;
    line_of_round(alloc, conn, round, line)
}

/// Reads the lines of the students whose keys are in column 0 of the rows.
fn lines_each<S: Alter>(
    alloc: Global,
    conn: &mut Connection<S>,
    round: Round,
    rows: &[Row],
) -> Result<Vec<ApplicantLine>, TableFault>
    ensures { MayRead round S.Store HasTables
        (GivesOrFails (λ db v. map Some v.items
        ≡ map (λ c. applicant_at round db.trees (first_cell c)) rows.now)
        (Contradicts (λ db. HasStudents round db
        × AllByRecursion (λ c. IsStudentKey db.trees (first_cell c)) rows.now)))
        result conn.old conn.new }
{
    let mut lines = Vec::new(alloc);
    for row in rows {
        lines.push(line_in(alloc, conn, round, bytes_at(row, 0))?)?;
    }
    Ok(lines)
}

/// Reads the lines of the students who list the project in the round, sorted by key. Fails with
/// `Damaged` if rows are not as the portal writes them. Fails with `Store` if the store reports an
/// error, and with `Memory` if memory runs out.
pub(crate) fn lines_to<S: Alter>(
    alloc: Global,
    conn: &mut Connection<S>,
    round: Round,
    project: &Key,
) -> Result<Vec<ApplicantLine>, TableFault>
    ensures { Reads round S.Store HasTables
        (GivesOrFails (λ db v. v.items ≡ applicant_lines round db.trees project.now)
        (Contradicts (HasStudents round))) result conn.old conn.new }
{
    let rows = read_in_order(alloc, conn, Query::Choosers(round, project.as_bytes()))?;
    lines_each(alloc, conn, round, &rows)
}

/// Copies the persons of the lines, in order. Fails only if memory runs out.
pub(crate) fn persons_of(alloc: Global, lines: &[ApplicantLine]) -> Result<Vec<Person>, AllocError>
    ensures { IfOk result (λ v. v.items ≡ map (λ l. l.person) lines.now) }
{
    let mut found = Vec::with_capacity(alloc, lines.len())?;
    for line in lines {
        found.push(line.person.copy(alloc)?)?;
    }
    Ok(found)
}
