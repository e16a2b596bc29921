//! Selects the students, projects and lecturers of the second round, with the remaining room.

ghost use Rattle.std.specs.Prelude.{◌≡◌, IfOk, map, filter};
ghost use Rattle.std.specs.List.{list_any, filter_map};
ghost use Rattle.portal_rules.specs.Words.{equals};
ghost use Rattle.portal_rules.specs.World.{is_left, pairs_with};
ghost use Rattle.portal_rules.specs.Alone.{alone_student};
ghost use Rattle.portal_list.specs.inner.Played as meant;
ghost use Rattle.portal_list.specs.inner.Played.{lecturer_played, project_played, all_played};

use crate::copies::{pair_copy, ranking_copy, student_copy};
use crate::entries::{Entries, LecturerEntry, StudentEntry};
use portal_rules::collecting::{try_filter_map, try_map_where};
use portal_rules::{ProjectRow, Round, lecturer_left, project_left};
use spa_rows::Key;
use std::alloc::{AllocError, Global};

/// Returns whether a student takes part in the round, from the student's entry.
pub(crate) fn takes_part(round: Round, student: &StudentEntry) -> bool
    ensures { result ≡ meant.takes_part round student.now }
{
    match round {
        Round::First => true,
        Round::Second => student.earlier_placement.is_none(),
    }
}

/// Returns the pairs of the first round's result, to compute the remaining room.
fn earlier_pairs(alloc: Global, students: &[StudentEntry]) -> Result<Vec<(Key, Key)>, AllocError>
    ensures { IfOk result (λ v. v.items ≡ pairs_with (λ s. s.earlier_placement) students.now) }
{
    try_filter_map(alloc, students, |s| {
        pair_copy(alloc, &s.row.key, s.earlier_placement.as_ref())
    })
}

/// Returns the lecturer's entry with the remaining room as capacity, or `None` if no room remains.
fn lecturer_played(
    alloc: Global,
    projects: &[ProjectRow],
    pairs: &[(Key, Key)],
    lecturer: &LecturerEntry,
) -> Result<Option<LecturerEntry>, AllocError>
    ensures { IfOk result (λ o. o ≡ lecturer_played projects.now pairs.now lecturer.now) }
{
    match lecturer_left(alloc, projects, pairs, &lecturer.row)? {
        Some(row) => Ok(Some(LecturerEntry {
            row,
            ranking: ranking_copy(alloc, &lecturer.ranking)?,
            earlier_ranking: None,
        })),
        None => Ok(None),
    }
}

/// Selects the second round's lecturers: those with room left, each with that room as capacity.
fn lecturers_played(
    alloc: Global,
    lecturers: &[LecturerEntry],
    projects: &[ProjectRow],
    pairs: &[(Key, Key)],
) -> Result<Vec<LecturerEntry>, AllocError>
    ensures { IfOk result (λ v. v.items
        ≡ filter_map (lecturer_played projects.now pairs.now) lecturers.now) }
{
    try_filter_map(alloc, lecturers, |l| {
        lecturer_played(alloc, projects, pairs, l)
    })
}

/// Returns whether one of the second round's lecturers has the key.
fn is_there(lecturers: &[LecturerEntry], key: &Key) -> bool
    ensures { result ≡ list_any (λ l. equals key.now l.row.key) lecturers.now }
{
    lecturers.iter().any(|l| *key == l.row.key)
}

/// Returns the project with its remaining room, if it is one of the second round's. It is if room
/// remains and its lecturer is one of these.
fn project_played(
    alloc: Global,
    lecturers: &[LecturerEntry],
    pairs: &[(Key, Key)],
    project: &ProjectRow,
) -> Result<Option<ProjectRow>, AllocError>
    ensures { IfOk result (λ o. o ≡ project_played lecturers.now pairs.now project.now) }
{
    if is_there(lecturers, &project.lecturer) {
        project_left(alloc, pairs, project)
    } else {
        Ok(None)
    }
}

/// Selects the second round's projects: those of these lecturers with room left, each with that
/// room.
fn projects_played(
    alloc: Global,
    lecturers: &[LecturerEntry],
    projects: &[ProjectRow],
    pairs: &[(Key, Key)],
) -> Result<Vec<ProjectRow>, AllocError>
    ensures { IfOk result (λ v. v.items
        ≡ filter_map (project_played lecturers.now pairs.now) projects.now) }
{
    try_filter_map(alloc, projects, |p| {
        project_played(alloc, lecturers, pairs, p)
    })
}

/// Selects the second round's students: copies those without a project of the first round. The
/// copies have no data of the first round.
fn students_played(
    alloc: Global,
    students: &[StudentEntry],
) -> Result<Vec<StudentEntry>, AllocError>
    ensures { IfOk result (λ v. v.items ≡ map alone_student (filter is_left students.now)) }
{
    try_map_where(
        alloc,
        students,
        |s| s.earlier_placement.is_none(),
        |s| student_copy(alloc, &s.row, &s.choice, s.placed.as_ref()),
    )
}

/// Returns the entries that take part in the second round, with the remaining room.
pub(crate) fn entries_in_play(alloc: Global, entries: &Entries) -> Result<Entries, AllocError>
    ensures { IfOk result (λ e. e ≡ all_played entries.now) }
{
    let pairs = earlier_pairs(alloc, &entries.students)?;
    let lecturers = lecturers_played(alloc, &entries.lecturers, &entries.projects, &pairs)?;
    let projects = projects_played(alloc, &lecturers, &entries.projects, &pairs)?;
    let students = students_played(alloc, &entries.students)?;
    Ok(Entries {
        round: Round::First,
        lecturers,
        projects,
        students,
    })
}
