//! Collects from the entries what only the office sees: rolls, and who lacks a list or ranking.

ghost use Rattle.std.specs.Prelude.{◌≡◌, IfOk, map, filter, ◌&&◌, [], if◌then◌else◌};
ghost use Rattle.std.specs.List.{list_any};
ghost use Rattle.portal_rules.specs.Words.{has, is_empty};
ghost use Rattle.portal_list.specs.inner.Played.{takes_part};
ghost use Rattle.portal_list.specs.inner.Shown.{is_wanted, is_waiting};

use crate::copies::holds;
use crate::entries::{LecturerEntry, StudentEntry};
use crate::second_round::takes_part;
use portal_rules::collecting::{try_map, try_map_where};
use portal_rules::{LecturerRow, ProjectRow, Round, StudentRow};
use spa_rows::Key;
use std::alloc::{AllocError, Global};

/// Copies the roll of lecturers for the office's view.
pub(super) fn lecturer_rows(
    alloc: Global,
    lecturers: &[LecturerEntry],
) -> Result<Vec<LecturerRow>, AllocError>
    ensures { IfOk result (λ v. v.items ≡ map (λ l. l.row) lecturers.now) }
{
    try_map(alloc, lecturers, |l| l.row.copy(alloc))
}

/// Copies the roll of students for the office's view.
pub(super) fn student_rows(
    alloc: Global,
    students: &[StudentEntry],
) -> Result<Vec<StudentRow>, AllocError>
    ensures { IfOk result (λ v. v.items ≡ map (λ s. s.row) students.now) }
{
    try_map(alloc, students, |s| s.row.copy(alloc))
}

/// Finds in the entries the students who take part and have an empty list.
pub(super) fn without_list(
    alloc: Global,
    round: Round,
    students: &[StudentEntry],
) -> Result<Vec<Key>, AllocError>
    ensures { IfOk result (λ v. v.items
        ≡ map (λ s. s.row.key)
        (filter (λ s. takes_part round s && is_empty s.choice) students.now)) }
{
    try_map_where(
        alloc,
        students,
        |s| takes_part(round, s) && s.choice.is_empty(),
        |s| s.row.key.copy(alloc),
    )
}

/// Returns whether some list in the entries contains the project.
fn is_listed(students: &[StudentEntry], project: &Key) -> bool
    ensures { result ≡ list_any (λ s. has s.choice project.now) students.now }
{
    students.iter().any(|s| holds(&s.choice, project))
}

/// Returns whether some list in the entries contains a project of the lecturer.
fn has_applicant(students: &[StudentEntry], projects: &[ProjectRow], lecturer: &Key) -> bool
    ensures { result ≡ is_wanted students.now projects.now lecturer.now }
{
    projects
        .iter()
        .any(|p| p.lecturer == *lecturer && is_listed(students, &p.key))
}

/// Finds in the entries the lecturers who have an applicant and no ranking.
pub(crate) fn lecturers_to_rank(
    alloc: Global,
    lecturers: &[LecturerEntry],
    projects: &[ProjectRow],
    students: &[StudentEntry],
) -> Result<Vec<Key>, AllocError>
    ensures { IfOk result (λ v. v.items
        ≡ map (λ l. l.row.key) (filter (is_waiting students.now projects.now) lecturers.now)) }
{
    try_map_where(
        alloc,
        lecturers,
        |l| l.ranking.is_none() && has_applicant(students, projects, &l.row.key),
        |l| l.row.key.copy(alloc),
    )
}

/// Finds in the entries the lecturers still to rank, or none while lists are open.
pub(super) fn still_to_rank(
    alloc: Global,
    closed: bool,
    lecturers: &[LecturerEntry],
    projects: &[ProjectRow],
    students: &[StudentEntry],
) -> Result<Vec<Key>, AllocError>
    ensures { IfOk result (λ v. v.items
        ≡ (if closed then map (λ l. l.row.key)
        (filter (is_waiting students.now projects.now) lecturers.now) else [])) }
{
    if closed {
        lecturers_to_rank(alloc, lecturers, projects, students)
    } else {
        Ok(Vec::new(alloc))
    }
}
