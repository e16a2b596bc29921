//! Reads the rolls, and one round's lists, rankings and result.

ghost use Rattle.portal_views.specs.inner.Base.{IsDatabase};
ghost use Rattle.portal_views.specs.inner.Contents.{rows_held, HasRead, HasFineRolls};
ghost use Rattle.portal_tables.specs.Reads.{GivesOrFails, Blames, Reads};

use portal_rules::{LecturerRow, ProjectRow, Round, StudentRow};
use portal_tables::sql::list_table::Lists;
use portal_tables::{TableFault, entries_in, pairs_in, parts_of, rolls_in};
use spa_rows::Key;
use sqlite::{Alter, Connection};
use std::alloc::Global;

/// The rows of the rolls, with the lists, the rankings and the result of a round.
#[derive(Drop)]
pub struct Contents {
    pub lecturers: Vec<LecturerRow>,
    pub projects: Vec<ProjectRow>,
    pub students: Vec<StudentRow>,
    /// Each student's list, by student.
    pub choices: Vec<(Key, Vec<Key>)>,
    /// The rankings of the lecturers who have one, by lecturer.
    pub rankings: Vec<(Key, Vec<Key>)>,
    /// The result: pairs of a student and a project, by student.
    pub pairs: Vec<(Key, Key)>,
}

/// Reads the rolls, with the lists, the rankings and the result of a round. It makes queries for
/// each roll, each table of lists and each owner. Fails with `Damaged` if a roll's keys are not
/// strictly ascending or a cell holds an invalid value. A student with two placements, or a list
/// that `entries_in` refuses, is `Damaged` too. Fails with `Store` if the store reports an error,
/// and with `Memory` if memory runs out.
pub fn contents_in<S: Alter>(
    alloc: Global,
    conn: &mut Connection<S>,
    round: Round,
) -> Result<Contents, TableFault>
    ensures { Reads round S.Store IsDatabase
        (GivesOrFails (λ db rows. HasRead round (rows_held rows) db.trees)
        (λ db fault. Blames fault (HasFineRolls round db.trees))) result conn.old conn.new }
{
    let rolls = rolls_in(alloc, conn)?;
    let choices = entries_in(alloc, conn, Lists::Choices(round), &rolls.students)?;
    let rankings = entries_in(alloc, conn, Lists::Rankings(round), &rolls.lecturers)?;
    let pairs = pairs_in(alloc, conn, round, None, &rolls.students)?;
    let parts = parts_of(alloc, &rolls)?;
    Ok(Contents {
        lecturers: parts.lecturers,
        projects: parts.projects,
        students: parts.students,
        choices,
        rankings,
        pairs,
    })
}
